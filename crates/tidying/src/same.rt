//! Whether two instructions are one.

ghost use Rattle.std.specs.Prelude.{◌≡◌, true};

use superstep_instructions::Instr;

/// Whether two instructions are one.
pub(crate) fn are_same(one: Instr, other: Instr) -> bool
    ensures { result ≡ true → one ≡ other }
{
    match (one, other) {
        (Instr::Mark { line: line_1 }, Instr::Mark { line: line_2 }) => line_1 == line_2,
        (
            Instr::Set {
                side: side_1,
                destination: destination_1,
                value: value_1,
            },
            Instr::Set {
                side: side_2,
                destination: destination_2,
                value: value_2,
            },
        ) => side_1 == side_2 && destination_1 == destination_2 && value_1 == value_2,
        (
            Instr::Copy {
                side: side_1,
                destination: destination_1,
                source: source_1,
            },
            Instr::Copy {
                side: side_2,
                destination: destination_2,
                source: source_2,
            },
        ) => side_1 == side_2 && destination_1 == destination_2 && source_1 == source_2,
        (
            Instr::Negate {
                side: side_1,
                destination: destination_1,
                source: source_1,
                position: position_1,
            },
            Instr::Negate {
                side: side_2,
                destination: destination_2,
                source: source_2,
                position: position_2,
            },
        ) => side_1 == side_2
            && destination_1 == destination_2
            && source_1 == source_2
            && position_1 == position_2,
        (
            Instr::Calculate {
                side: side_1,
                operation: operation_1,
                destination: destination_1,
                left: left_1,
                right: right_1,
                position: position_1,
            },
            Instr::Calculate {
                side: side_2,
                operation: operation_2,
                destination: destination_2,
                left: left_2,
                right: right_2,
                position: position_2,
            },
        ) => side_1 == side_2
            && operation_1 == operation_2
            && destination_1 == destination_2
            && left_1 == left_2
            && right_1 == right_2
            && position_1 == position_2,
        (
            Instr::Decide {
                side: side_1,
                operation: operation_1,
                destination: destination_1,
                left: left_1,
                right: right_1,
            },
            Instr::Decide {
                side: side_2,
                operation: operation_2,
                destination: destination_2,
                left: left_2,
                right: right_2,
            },
        ) => side_1 == side_2
            && operation_1 == operation_2
            && destination_1 == destination_2
            && left_1 == left_2
            && right_1 == right_2,
        (
            Instr::Not {
                side: side_1,
                destination: destination_1,
                source: source_1,
            },
            Instr::Not {
                side: side_2,
                destination: destination_2,
                source: source_2,
            },
        ) => side_1 == side_2 && destination_1 == destination_2 && source_1 == source_2,
        (
            Instr::CopyUniform {
                destination: destination_1,
                source: source_1,
            },
            Instr::CopyUniform {
                destination: destination_2,
                source: source_2,
            },
        ) => destination_1 == destination_2 && source_1 == source_2,
        (
            Instr::Index {
                destination: destination_1,
            },
            Instr::Index {
                destination: destination_2,
            },
        ) => destination_1 == destination_2,
        (
            Instr::Enter {
                low: low_1,
                high: high_1,
                position: position_1,
            },
            Instr::Enter {
                low: low_2,
                high: high_2,
                position: position_2,
            },
        ) => low_1 == low_2 && high_1 == high_2 && position_1 == position_2,
        (Instr::Leave, Instr::Leave) => true,
        (Instr::Mask { source: source_1 }, Instr::Mask { source: source_2 }) => source_1
            == source_2,
        (Instr::Flip, Instr::Flip) => true,
        (Instr::Unmask, Instr::Unmask) => true,
        (
            Instr::Ask {
                side: side_1,
                destination: destination_1,
                entry: entry_1,
                subscript: subscript_1,
                position: position_1,
            },
            Instr::Ask {
                side: side_2,
                destination: destination_2,
                entry: entry_2,
                subscript: subscript_2,
                position: position_2,
            },
        ) => side_1 == side_2
            && destination_1 == destination_2
            && entry_1 == entry_2
            && subscript_1 == subscript_2
            && position_1 == position_2,
        (
            Instr::Put {
                side: side_1,
                entry: entry_1,
                subscript: subscript_1,
                value: value_1,
                position: position_1,
            },
            Instr::Put {
                side: side_2,
                entry: entry_2,
                subscript: subscript_2,
                value: value_2,
                position: position_2,
            },
        ) => side_1 == side_2
            && entry_1 == entry_2
            && subscript_1 == subscript_2
            && value_1 == value_2
            && position_1 == position_2,
        (Instr::Send, Instr::Send) => true,
        (Instr::Reply, Instr::Reply) => true,
        (
            Instr::Vote {
                destination: destination_1,
            },
            Instr::Vote {
                destination: destination_2,
            },
        ) => destination_1 == destination_2,
        (Instr::Print { source: source_1 }, Instr::Print { source: source_2 }) => source_1
            == source_2,
        (Instr::Jump { target: target_1 }, Instr::Jump { target: target_2 }) => target_1
            == target_2,
        (
            Instr::JumpIfZero {
                source: source_1,
                target: target_1,
            },
            Instr::JumpIfZero {
                source: source_2,
                target: target_2,
            },
        ) => source_1 == source_2 && target_1 == target_2,
        (Instr::Halt, Instr::Halt) => true,
        _ => false,
    }
}
