//! What is so of what is said.

ghost use Rattle.std.specs.Prelude.{◌≡◌, ℕ, Bool, List};
ghost use Rattle.pram_names.specs.declared.fault.Breach.{Breach as BreachOf};
ghost use Rattle.pram_names.specs.declared.fault.Cause.TheVariants.{UnknownName as Unknown};
ghost use Rattle.pram_names.specs.declared.scope.Meaning.{Meaning as MeaningOf};
ghost use Rattle.pram_trees.specs.Program.{ProgramTree};
ghost use Rattle.diagnoses.specs.Against.{IsAsJudged};
ghost use Rattle.diagnoses.specs.Guesses.{HasNoGuessAt, IsGuessAt, IsSilent};
ghost use Rattle.diagnoses.specs.Remarks.{Nearest as Meant, remark_of as remark_in};
ghost use Rattle.diagnoses.specs.declared.fitting.Role.{Role as RoleOf};

/// A name that is said to be meant is in scope where the unknown name stands, near to that, and of a sort that may stand there; and none of
/// those is nearer.
pub fn a_meant_name_may_stand_there()
    // A name that is told to be meant is in scope there, near to the wrong one, and may stand there, and none such is
    // nearer.
    ensures { (text name : List ℕ) (tree : ProgramTree) (b : BreachOf) →
        remark_in text tree b ≡ Meant name → IsGuessAt text tree b.spot name }
{}

/// An unknown name is said to be undeclared, or nothing is said, only where none that is in scope and may stand there is near to it.
pub fn a_name_is_meant_where_one_is_near()
    // An unknown name is told to be undeclared, and none to be meant, only where no name in scope that may stand there
    // is near to it.
    ensures { (text : List ℕ) (tree : ProgramTree) (b : BreachOf) →
        b.cause ≡ Unknown → IsSilent (remark_in text tree b) → HasNoGuessAt text tree b.spot }
{}

/// Names of just those sorts may stand in a role against which the checker has nothing: what is guessed is not refused in its turn.
pub fn what_may_stand_is_not_refused()
    // An array may stand as an element, what may be assigned as a target, a free variable as a counter, else anything
    // but an array, just as the checker allows.
    ensures { (r : RoleOf) (inside : Bool) (loops : List ℕ) (m : MeaningOf) → IsAsJudged r inside loops m }
{}
