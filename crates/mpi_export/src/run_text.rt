//! The text of the runtime: the outcome and the run. Written by `gate/mpi.py` from the files of `runtime/`.

/// The outcome, and the close.
pub(crate) const OUTCOME: [u8; 3525] = *b"
/* ---- The outcome, which rank 0 writes */
static struct item {
    uint64_t count;
    int64_t value;
} *items;
static size_t printed, written, items_room;

static void print(int64_t value) {
    if (self != 0)
        return;
    if (printed == items_room) {
        items_room = 2 * items_room + 64;
        items = realloc(items, items_room * sizeof(*items));
        if (!items)
            stop(\"refused E16 OutOfMemory\");
    }
    items[printed++] = (struct item){count, value};
}

/* Writes the items of all statements before that one. */
static void write_items(uint64_t behind) {
    for (; written < printed && items[written].count < behind; written++)
        printf(\"%\" PRId64 \"\\n\", items[written].value);
    fflush(stdout);
}

static uint64_t size_of(const struct entry *entry) { return (uint64_t)entry->high - (uint64_t)entry->low + 1; }

/* The line of an entry; its values come from all ranks, in parts. */
static void write_entry(const struct entry *entry, uint64_t first) {
    static uint64_t mine[part], all[part];
    const uint64_t behind = first + size_of(entry);
    if (self == 0 && entry->form == entry_array)
        printf(\"%s[%\" PRId64 \"..%\" PRId64 \"] =\", entry->name, entry->low, entry->high);
    else if (self == 0)
        printf(\"%s =\", entry->name);
    for (uint64_t from = first; from < behind; from += part) {
        const uint64_t few = behind - from < part ? behind - from : part;
        for (uint64_t i = 0; i < few; i++)
            mine[i] = module_of(from + i) == self ? (uint64_t)cells[offset_of(from + i)] : 0;
        MPI_Reduce(mine, all, (int)few, MPI_UINT64_T, MPI_BOR, 0, MPI_COMM_WORLD);
        for (uint64_t i = 0; self == 0 && i < few; i++)
            printf(\" %\" PRId64, (int64_t)all[i]);
    }
    if (self == 0)
        printf(\"\\n\");
}

/* A cell by its name, as a[4]. */
static void write_cell(uint64_t cell) {
    size_t at = 0;
    while (entries[at + 1].form != entry_end && first_of[at + 1] <= cell)
        at++;
    printf(\"%s\", entries[at].name);
    if (entries[at].form == entry_array)
        printf(\"[%\" PRId64 \"]\", entries[at].low + (int64_t)(cell - first_of[at]));
}

static void write_fault(void) {
    static const char *const words[] = {\"overflow\", \"divide-by-zero\", \"out-of-range\", \"too-wide\", \"read-conflict\",
        \"write-conflict\"};
    const uint64_t *of = least.of, number = of[key_number] ^ SIGN;
    printf(\"fault %s \", words[of[key_kind]]);
    if (of[key_place] == place_cell)
        write_cell(number);
    else if (of[key_place] == place_processor)
        printf(\"processor %\" PRId64, (int64_t)number);
    else
        printf(\"all\");
    printf(\" line %\" PRIu64 \"\\n\", of[key_line]);
}

/* Writes what is left of the outcome of this status; of a faulted run the items that were printed before. */
static enum status told(enum status status) {
    if (is_silent)
        return status;
    write_items(status == status_faulted ? least.of[key_count] : UINT64_MAX);
    if (self == 0 && status == status_faulted)
        write_fault();
    else if (self == 0)
        puts(status == status_ended ? \"ended\" : \"goes on\");
    for (size_t k = 0; status == status_ended && entries[k].form != entry_end; k++)
        write_entry(&entries[k], first_of[k]);
    return status;
}

/* The close: at the end or at the bound. First what is held is sent. */
static enum status closed(enum status status) {
    if (is_put_held)
        is_over_at_send();
    exchange(for_close, false);
    return told(least.is ? status_faulted : status);
}
";

/// The run, instruction by instruction.
pub(crate) const RUN: [u8; 2758] = *b"
/* ---- The run */
#define OPERATION(name, left, right, position) \\
    case op_u##name: operate(of_all, op_u##name, at[1], left, right, position); break; \\
    case op_p##name: operate(of_each, op_u##name, at[1], left, right, position); break;

/* An instruction that neither exchanges nor goes anywhere. */
static void act(const int64_t *at) {
    switch (at[0]) {
    OPERATION(copy, at[2], at[2], 0) OPERATION(not, at[2], at[2], 0) OPERATION(neg, at[2], at[2], at[3])
    OPERATION(add, at[2], at[3], at[4]) OPERATION(sub, at[2], at[3], at[4]) OPERATION(mul, at[2], at[3], at[4])
    OPERATION(div, at[2], at[3], at[4]) OPERATION(mod, at[2], at[3], at[4])
    OPERATION(eq, at[2], at[3], 0) OPERATION(lt, at[2], at[3], 0) OPERATION(le, at[2], at[3], 0)
    OPERATION(and, at[2], at[3], 0) OPERATION(or, at[2], at[3], 0)
    case op_uset: uniform[at[1]] = at[2]; break;
    case op_pset: fill(at[1], at[2], 0); break;
    case op_pfrom: fill(at[1], uniform[at[2]], 0); break;
    case op_pindex: fill(at[1], index_of(of_each, 0), ranks); break;
    case op_enter: enter(uniform[at[1]], uniform[at[2]], at[3]); break;
    case op_leave: set_width(0); break;
    case op_mask: mask(at[1]); break;
    case op_flip: flip(); break;
    case op_unmask: on--; break;
    case op_uask: ask(of_all, at[1], at[2], at[3], at[4]); break;
    case op_pask: ask(of_each, at[1], at[2], at[3], at[4]); break;
    case op_uput: put(of_all, at[1], at[2], at[3], at[4]); break;
    case op_pput: put(of_each, at[1], at[2], at[3], at[4]); break;
    case op_print: print(uniform[at[1]]); break;
    default: stop(\"a word that is no instruction\");
    }
}

static enum status run(void) {
    bool is_over = false;
    for (int64_t place = 0; !is_over;) {
        const int64_t *at = plan[place++];
        switch (at[0]) {
        case op_mark:
            if (count == options.bound)
                return closed(status_bound);
            count++;
            line = (uint64_t)at[1];
            break;
        case op_send: is_over = is_over_at_send(); break;
        case op_reply: is_over = is_over_at_reply(); break;
        case op_vote:
            is_over = exchange(for_vote, on->many > 0);
            uniform[at[1]] = any_active;
            break;
        case op_jump: place = at[1]; break;
        case op_jzero: place = uniform[at[1]] == 0 ? at[2] : place; break;
        case op_halt: return closed(status_ended);
        default: act(at);
        }
        /* here no statement before this one can fault any more, unless one has a write held; a trace goes before all items */
        if ((at[0] == op_reply || at[0] == op_vote) && !is_over && !is_put_held && asks == 0 && !tracing)
            write_items(count);
    }
    return told(status_faulted);
}
";

/// The memory of a rank, and where it begins.
pub(crate) const START: [u8; 2621] = *b"
static void take_cells(void) {
    first_of = fresh(sizeof(entries) / sizeof(entries[0]), sizeof(uint64_t));
    for (size_t k = 0; entries[k].form != entry_end; k++) {
        first_of[k] = all_cells;
        all_cells += size_of(&entries[k]);
    }
    for (all_places = 1; all_places < all_cells; all_places *= 2)
        ;
    if (all_places > cell_bits + 1)
        stop(\"more cells than CELL_BITS has room for\");
    const uint64_t own_places = (all_places + (uint64_t)ranks - 1 - (uint64_t)self) / (uint64_t)ranks;
    cells = fresh(own_places, sizeof(int64_t));
    joined_at = fresh(own_places, sizeof(uint32_t));
    readers = fresh(RULE == rule_erew ? own_places : 0, 1);
}

/* Takes memory for as many reads and masks as are at once on; verified code has at most 8 and 64. */
static void take_processors(void) {
    size_t here = 0, most = 1, lists_of = 1;
    for (size_t i = 0; i < sizeof(plan) / sizeof(plan[0]); i++) {
        const int64_t word = plan[i][0];
        here = word == op_send ? 0 : here + (word == op_uask || word == op_pask);
        most = here > most && here <= most_reads ? here : most;
        lists_of += word == op_mask && lists_of <= most_masks;
    }
    room = ((size_t)PROCS + (size_t)ranks - 1) / (size_t)ranks;
    uniform = fresh(UNIFORM, sizeof(int64_t));
    registers = fresh((size_t)PRIVATE * room, sizeof(int64_t));
    levels[0].list = lists = fresh(lists_of * room, sizeof(uint32_t));
    for (size_t i = 0; i < room; i++)
        lists[i] = (uint32_t)i;
    others = fresh(room, sizeof(uint32_t));
    held = fresh(room, sizeof(*held));
    for (size_t k = 0; k < most; k++)
        reads[k].asked = fresh(room, sizeof(uint32_t));
    list = fresh(most * room, sizeof(*list));
    for (last_place = 1; (size_t)last_place + 1 < 2 * room;)
        last_place = 2 * last_place + 1;
    table = fresh((size_t)last_place + 1, sizeof(*table));
}

int main(int words, char **word) {
    int status = status_refused;
    MPI_Init(&words, &word);
    MPI_Comm_size(MPI_COMM_WORLD, &ranks);
    MPI_Comm_rank(MPI_COMM_WORLD, &self);
    inverse = UINT64_MAX / (uint64_t)ranks;
    take_cells();
    const char *wrong = wrong_word(word);
    bool is_fine = self == 0 && is_accepted(wrong);
    MPI_Bcast(&is_fine, 1, MPI_C_BOOL, 0, MPI_COMM_WORLD);
    if (is_fine) {
        take_processors();
        spread();
        status = run();
    }
    if (self == 0 && (fflush(stdout) != 0 || ferror(stdout)))
        fputs(\"refused E17 WriteFailed\\n\", stderr), status = status_refused;
    MPI_Bcast(&status, 1, MPI_INT, 0, MPI_COMM_WORLD);
    MPI_Finalize();
    return status;
}
";
