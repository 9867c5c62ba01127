//! The text of the runtime: a program of one memory. Written by `gate/mpi.py` from the files of `runtime/`.

/// What stands before a plan for one memory.
pub(crate) const ALONE_HEAD: [u8; 1669] =
    *b"/* A plan for the bulk-synchronous machine, as a program in C11 of one memory: no workers and no messages.
 *
 *     cc -O3 plan.c -o plan                  one thread
 *     cc -O3 -fopenmp plan.c -o plan         as many threads as OMP_NUM_THREADS says
 *     ./plan [--input FILE | --memory FILE] [--bound N] [--show NAMES | --quiet]
 *
 * It writes what `pramc run` writes, and ends with the same status: 0 it ended, 1 it faulted, 2 it was refused, 3 it met the bound.
 * Each instruction of the plan is a call of its word below. What C and its compiler make of it isn't proved: the plan is, and that its
 * words stand below. */
#include <ctype.h>
#include <inttypes.h>
#include <stdbool.h>
#include <stdio.h>
#include <stdlib.h>
#include <string.h>

/* The rules, for the preprocessor too. */
#define rule_erew 0
#define rule_crew 1
#define rule_common 2
#define rule_priority 3
#define rule_sum 4

/* A shared declaration: a single cell, which has the subscript 0, or an array with its least and its greatest subscript. */
struct entry {
    enum { entry_cell, entry_array, entry_end } form;
    const char *name;
    int64_t low, high;
};

/* What need not be used by each plan. */
#if defined(__GNUC__)
#pragma GCC diagnostic ignored \"-Wunused-variable\"
#pragma GCC diagnostic ignored \"-Wunused-but-set-variable\"
#define SPARE __attribute__((unused))
#define COLD __attribute__((cold, noinline))
#else
#define SPARE
#define COLD
#endif

/* The most bytes of an input, as the limit of the language is: for larger ones give another number. */
#ifndef INPUT_BYTES
#define INPUT_BYTES 1048576
#endif

/* What ends the table of columns. */
#define no_column SIZE_MAX
";

/// The state of a run on one memory, and its faults.
pub(crate) const ALONE_STATE: [u8; 3057] = *b"
/* ---- The state of a run */
enum { most_masks = 64 };
enum status { status_ended, status_faulted, status_refused, status_bound };

/* The count and the line of statements, and the index of the first processor of the range. */
static uint64_t count, line;
static int64_t low;

/* The active processors: all of the first `many`, or those of a list, ascending. One level for the range, and one for each mask. */
struct level {
    const uint32_t *list;
    size_t many;
};
static struct level levels[most_masks + 1], *on = levels;
static uint32_t *stayed[most_masks + 1], *left[most_masks + 1]; /* who stays active by each mask, and who does not */
static bool turned[most_masks + 1];                              /* whether those that do not are active */

/* The cells, and the first one of each entry. Registers of processors that a statement takes over from one before, by columns. */
static int64_t *cells, *columns;
static uint64_t all_cells, *first_of;
static const uint64_t none = UINT64_MAX;

/* Of each active processor the cell that it writes or reads alone, the value that it writes, and whether it stays active. */
static uint64_t *at_cells;
static int64_t *at_values;
static bool *stays;
static uint32_t *owners; /* of a cell the place, among the active processors, of one that writes or reads it */

static _Noreturn void stop(const char *why) {
    fflush(stdout);
    fprintf(stderr, \"%s\\n\", why);
    exit(status_refused);
}

/* Memory that is all 0, for at least one item. */
static void *fresh(size_t items, size_t size) {
    void *memory = calloc(items ? items : 1, size);
    if (!memory)
        stop(\"refused E16 OutOfMemory\");
    return memory;
}

/* The cell of an entry at a subscript. */
SPARE static inline uint64_t cell_of(int64_t entry, int64_t subscript) {
    const uint64_t past = (uint64_t)subscript - (uint64_t)entries[entry].low;
    const bool is_there = past <= (uint64_t)entries[entry].high - (uint64_t)entries[entry].low;
    return is_there ? first_of[entry] + past : none;
}

/* ---- Faults: the least one of a statement is told, by position, place and kind. Cells are behind processors, these behind all. */
enum place { place_all, place_processor, place_cell };
enum kind { overflow, divide_by_zero, out_of_range, too_wide, read_conflict, write_conflict };
static struct fault {
    bool is;
    uint64_t position;
    enum place place;
    int64_t number;
    enum kind kind;
} noted;

static bool is_before(const struct fault *one, const struct fault *other) {
    if (one->position != other->position)
        return one->position < other->position;
    if (one->place != other->place)
        return one->place < other->place;
    return one->number != other->number ? one->number < other->number : one->kind < other->kind;
}

COLD static void note(uint64_t position, enum place place, int64_t number, enum kind kind) {
    const struct fault fault = {true, position, place, number, kind};
#ifdef _OPENMP
#pragma omp critical
#endif
    if (!noted.is || is_before(&fault, &noted))
        noted = fault;
}
";

/// Values, the range and its masks.
pub(crate) const ALONE_VALUES: [u8; 3530] = *b"
/* ---- Values: what an operation gives, and 0 where it faults */
SPARE static inline int64_t failed(uint64_t position, enum place place, int64_t number, enum kind kind) {
    note(position, place, number, kind);
    return 0;
}
SPARE static inline int64_t added(int64_t a, int64_t b, uint64_t position, enum place place, int64_t number) {
    int64_t to;
    return __builtin_add_overflow(a, b, &to) ? failed(position, place, number, overflow) : to;
}
SPARE static inline int64_t subtracted(int64_t a, int64_t b, uint64_t position, enum place place, int64_t number) {
    int64_t to;
    return __builtin_sub_overflow(a, b, &to) ? failed(position, place, number, overflow) : to;
}
SPARE static inline int64_t multiplied(int64_t a, int64_t b, uint64_t position, enum place place, int64_t number) {
    int64_t to;
    return __builtin_mul_overflow(a, b, &to) ? failed(position, place, number, overflow) : to;
}

/* A floor division is by no 0 here, nor by -1. */
SPARE static inline int64_t floored(int64_t a, int64_t b) { return a / b - (a % b != 0 && (a < 0) != (b < 0)); }
SPARE static inline int64_t divided(int64_t a, int64_t b, uint64_t position, enum place place, int64_t number) {
    if (b == 0)
        return failed(position, place, number, divide_by_zero);
    return b == -1 ? subtracted(0, a, position, place, number) : floored(a, b);
}
SPARE static inline int64_t remaining(int64_t a, int64_t b, uint64_t position, enum place place, int64_t number) {
    if (b == 0)
        return failed(position, place, number, divide_by_zero);
    const int64_t rest = b == -1 ? 0 : a % b;
    return rest != 0 && (rest < 0) != (b < 0) ? rest + b : rest;
}
SPARE static inline uint64_t found_cell(int64_t entry, int64_t subscript, uint64_t position, enum place place, int64_t number) {
    const uint64_t cell = cell_of(entry, subscript);
    if (cell == none)
        note(position, place, number, out_of_range);
    return cell;
}
SPARE static inline int64_t value_at(uint64_t cell) { return cell == none ? 0 : cells[cell]; }

/* ---- The range and its masks */
SPARE static void enter_range(int64_t from, int64_t to, uint64_t position) {
    const bool is_wide = from <= to && (uint64_t)to - (uint64_t)from >= PROCS;
    if (is_wide)
        note(position, place_all, 0, too_wide);
    low = from;
    on = levels;
    on->many = is_wide || from > to ? 0 : (size_t)((uint64_t)to - (uint64_t)from) + 1;
    for (const size_t *column = taken_over; *column != no_column; column++)
        memset(columns + *column * PROCS, 0, on->many * sizeof(int64_t));
}

/* Lists who stays and who doesn't; where all do no list is made. */
SPARE static void split(void) {
    const struct level *whole = on++;
    const size_t depth = (size_t)(on - levels);
    if (!stayed[depth]) {
        stayed[depth] = fresh(PROCS, sizeof(uint32_t));
        left[depth] = fresh(PROCS, sizeof(uint32_t));
    }
    size_t kept = 0;
    for (size_t n = 0; n < whole->many; n++) {
        const uint32_t i = whole->list ? whole->list[n] : (uint32_t)n;
        stayed[depth][kept] = left[depth][n - kept] = i;
        kept += stays[n];
    }
    on->many = kept;
    on->list = kept == whole->many ? whole->list : stayed[depth];
    turned[depth] = false;
}
SPARE static void turn(void) {
    const size_t depth = (size_t)(on - levels);
    const struct level *whole = on - 1;
    turned[depth] = !turned[depth];
    on->many = whole->many - on->many;
    on->list = on->many == whole->many ? whole->list : turned[depth] ? left[depth] : stayed[depth];
}
";

/// Writes of a statement, and reads that have to be alone.
pub(crate) const ALONE_PUTS: [u8; 2761] = *b"
/* ---- Writes of a statement, and reads that have to be alone. Each active processor leaves its place at its cell: who finds another
 * one's there isn't alone. */
#ifdef _OPENMP
#define IN_THREADS _Pragma(\"omp parallel for schedule(static)\")
#define SET_OWNER(cell, n) __atomic_store_n(&owners[cell], (uint32_t)(n), __ATOMIC_RELAXED)
#else
#define IN_THREADS
#define SET_OWNER(cell, n) owners[cell] = (uint32_t)(n)
#endif

SPARE static void take_owners(void) {
    const size_t many = on->many;
    IN_THREADS
    for (size_t n = 0; n < many; n++)
        if (at_cells[n] != none)
            SET_OWNER(at_cells[n], n);
}

SPARE static void note_readers(uint64_t position) {
    const size_t many = on->many;
    take_owners();
    IN_THREADS
    for (size_t n = 0; n < many; n++)
        if (at_cells[n] != none && owners[at_cells[n]] != n)
            note(position, place_cell, (int64_t)at_cells[n], read_conflict);
}

/* Every cell gets its writer's value; under `common` the same value by several. */
SPARE static void settle_alone(uint64_t position) {
    const size_t many = on->many;
    take_owners();
    IN_THREADS
    for (size_t n = 0; n < many; n++) {
        const uint64_t cell = at_cells[n];
        if (cell == none)
            continue;
        const uint32_t owner = owners[cell];
        if (owner == n)
            cells[cell] = at_values[n];
        else if (RULE != rule_common || at_values[owner] != at_values[n])
            note(position, place_cell, (int64_t)cell, write_conflict);
    }
}

/* The least processor comes last. */
SPARE static void settle_by_priority(void) {
    for (size_t n = on->many; n-- > 0;)
        if (at_cells[n] != none)
            cells[at_cells[n]] = at_values[n];
}

/* The owner of a cell has the sum of all values for it, in 128 bits. */
__extension__ typedef __int128 wide;
static wide *sums;
SPARE static void settle_sums(uint64_t position) {
    const size_t many = on->many;
    if (!sums)
        sums = fresh(PROCS, sizeof(wide));
    take_owners();
    for (size_t n = 0; n < many; n++)
        sums[n] = 0;
    for (size_t n = 0; n < many; n++)
        if (at_cells[n] != none)
            sums[owners[at_cells[n]]] += at_values[n];
    for (size_t n = 0; n < many; n++) {
        const uint64_t cell = at_cells[n];
        if (cell == none || owners[cell] != n)
            continue;
        if (sums[n] < INT64_MIN || sums[n] > INT64_MAX)
            note(position, place_cell, (int64_t)cell, overflow);
        else
            cells[cell] = (int64_t)sums[n];
    }
}

SPARE static void settle_puts(uint64_t position) {
    if (RULE == rule_priority)
        settle_by_priority();
    else if (RULE == rule_sum)
        settle_sums(position);
    else
        settle_alone(position);
}
";

/// The command line.
pub(crate) const ALONE_OPTIONS: [u8; 1951] = *b"
/* ---- The command line */
static struct {
    const char *input, *memory, *show;
    uint64_t bound;
    bool is_quiet;
} options = {NULL, NULL, NULL, 1000000, false};

#define REFUSE(...) return fprintf(stderr, \"refused \" __VA_ARGS__), fputc('\\n', stderr), false

/* Whether a text is decimal digits, of a number that is at most `most`. */
static bool is_number(const char *text, size_t length, uint64_t most, uint64_t *number) {
    *number = 0;
    for (size_t i = 0; i < length; i++) {
        const uint64_t digit = (uint64_t)(text[i] - '0');
        if (digit > 9 || *number > (most - digit) / 10)
            return false;
        *number = 10 * *number + digit;
    }
    return length > 0;
}

/* Takes the words of the command line; the one that is refused, or null. */
static const char *wrong_word(char **word) {
    for (const char *option = *++word; option; option = *++word) {
        if (strcmp(option, \"--quiet\") == 0)
            options.is_quiet = true;
        else if (!word[1])
            return option;
        else if (strcmp(option, \"--input\") == 0)
            options.input = *++word;
        else if (strcmp(option, \"--memory\") == 0)
            options.memory = *++word;
        else if (strcmp(option, \"--show\") == 0)
            options.show = *++word;
        else if (strcmp(option, \"--bound\") != 0)
            return option;
        else if (++word, !is_number(*word, strlen(*word), UINT32_MAX, &options.bound))
            return *word;
    }
    return options.input && options.memory ? \"--memory\" : options.show && options.is_quiet ? \"--quiet\" : NULL;
}

/* Whether a name stands in a list, as a in a,b. */
static bool is_in(const char *list, const char *name) {
    const size_t length = strlen(name);
    for (const char *at = list; at; at = strchr(at, ','), at += at != NULL)
        if (strncmp(at, name, length) == 0 && (at[length] == ',' || at[length] == 0))
            return true;
    return false;
}
";

/// What the cells begin with, and memory.
pub(crate) const ALONE_OPENING: [u8; 2401] = *b"
static bool is_text_read(const char *name) {
    FILE *file = strcmp(name, \"-\") == 0 ? stdin : fopen(name, \"rb\");
    here = text = fresh((size_t)INPUT_BYTES + 2, 1);
    const size_t length = file ? fread(text, 1, (size_t)INPUT_BYTES + 1, file) : 0;
    if (!file || ferror(file))
        REFUSE(\"P2 %s\", name);
    if (length > INPUT_BYTES)
        REFUSE(\"E2 TextTooLong\");
    for (size_t i = 0; i < length; i++)
        if ((unsigned char)text[i] >= 128)
            REFUSE(\"E1 NotAscii at %zu\", i);
    gifts = fresh(length / 2 + 1, sizeof(*gifts));
    end = text + length;
    return options.memory ? are_lines() : are_values();
}

/* Whether each name of a list is an entry's. */
static bool are_names(const char *list) {
    for (const char *at = list; at; at = strchr(at, ','), at += at != NULL) {
        const size_t length = strcspn(at, \",\");
        size_t k = 0;
        while (entries[k].form != entry_end && (strncmp(entries[k].name, at, length) != 0 || entries[k].name[length]))
            k++;
        if (entries[k].form == entry_end)
            REFUSE(\"P1 %.*s\", (int)length, at);
    }
    return true;
}

static bool is_accepted(const char *wrong) {
    if (wrong)
        REFUSE(\"P1 %s\", wrong);
    if ((options.input || options.memory) && !is_text_read(options.memory ? options.memory : options.input))
        return false;
    if (options.input && given > all_cells)
        REFUSE(\"E11 InputTooLong\");
    for (uint64_t i = 0; i < given; i++)
        cells[gifts[i].cell] = gifts[i].value;
    return are_names(options.show);
}

static uint64_t size_of(const struct entry *entry) { return (uint64_t)entry->high - (uint64_t)entry->low + 1; }

static void take_memory(void) {
    first_of = fresh(sizeof(entries) / sizeof(entries[0]), sizeof(uint64_t));
    for (size_t k = 0; entries[k].form != entry_end; k++) {
        first_of[k] = all_cells;
        all_cells += size_of(&entries[k]);
    }
    cells = fresh(all_cells, sizeof(int64_t));
    owners = fresh(all_cells, sizeof(uint32_t));
    size_t most = 0; /* a column that no plan uses takes no memory that is touched */
    for (const size_t *column = taken_over; *column != no_column; column++)
        most = *column + 1;
    columns = fresh(most * PROCS, sizeof(int64_t));
    at_cells = fresh(PROCS, sizeof(uint64_t));
    at_values = fresh(PROCS, sizeof(int64_t));
    stays = fresh(PROCS, sizeof(bool));
}
";

/// The outcome.
pub(crate) const ALONE_OUTCOME: [u8; 2140] = *b"
/* ---- The outcome */
static bool is_pending; /* a number is printed once its statement is over without a fault */
static int64_t pending;

static void print_pending(void) {
    if (is_pending && !options.show)
        printf(\"%\" PRId64 \"\\n\", pending);
    is_pending = false;
}
SPARE static void print_later(int64_t value) {
    print_pending();
    pending = value;
    is_pending = true;
}

static void write_entry(const struct entry *entry, uint64_t first) {
    if (entry->form == entry_array)
        printf(\"%s[%\" PRId64 \"..%\" PRId64 \"] =\", entry->name, entry->low, entry->high);
    else
        printf(\"%s =\", entry->name);
    for (uint64_t i = 0; i < size_of(entry); i++)
        printf(\" %\" PRId64, cells[first + i]);
    printf(\"\\n\");
}

/* A cell by its name, as a[4]. */
static void write_cell(uint64_t cell) {
    size_t at = 0;
    while (entries[at + 1].form != entry_end && first_of[at + 1] <= cell)
        at++;
    printf(\"%s\", entries[at].name);
    if (entries[at].form == entry_array)
        printf(\"[%\" PRId64 \"]\", entries[at].low + (int64_t)(cell - first_of[at]));
}

static void write_fault(void) {
    static const char *const words[] = {\"overflow\", \"divide-by-zero\", \"out-of-range\", \"too-wide\", \"read-conflict\", \"write-conflict\"};
    printf(\"fault %s \", words[noted.kind]);
    if (noted.place == place_cell)
        write_cell((uint64_t)noted.number);
    else if (noted.place == place_processor)
        printf(\"processor %\" PRId64, noted.number);
    else
        printf(\"all\");
    printf(\" line %\" PRIu64 \"\\n\", line);
}

/* Writes what is left of the outcome; where a fault was noted that is it. */
static enum status closed(enum status status) {
    if (noted.is) {
        write_fault();
        return status_faulted;
    }
    print_pending();
    if (status != status_ended || !options.show)
        puts(status == status_ended ? \"ended\" : \"goes on\");
    for (size_t k = 0; status == status_ended && !options.is_quiet && entries[k].form != entry_end; k++)
        if (!options.show || is_in(options.show, entries[k].name))
            write_entry(&entries[k], first_of[k]);
    return status;
}
";

/// The words of instructions, as they stand in the plan.
pub(crate) const ALONE_WORDS: [u8; 3154] = *b"
/* ---- The words of instructions, as they stand in the plan. Those that begin with p are for each active processor: n is its place among
 * these, i its number in the range, and me its index. */
#define REGISTER(u) int64_t u = 0; (void)u;
#define COLUMN(c, k) int64_t *const restrict c = columns + (size_t)(k) * PROCS; (void)c;
#define EACH \\
    { \\
        const struct level these = *on; \\
        const int64_t first = low; \\
        IN_THREADS \\
        for (size_t n = 0; n < these.many; n++) { \\
            const size_t i = these.list ? these.list[n] : n; \\
            int64_t me = (int64_t)((uint64_t)first + i); \\
            (void)me;
#define END } }
#define OF_EACH place_processor, me
#define OF_ALL place_all, 0

#define mark(l) \\
    if (noted.is || count == options.bound) \\
        return closed(status_bound); \\
    print_pending(); \\
    count++; \\
    line = l;
#define uset(d, a) d = a;
#define pset(d, a) d = a;
#define ucopy(d, a) d = a;
#define pcopy(d, a) d = a;
#define pfrom(d, a) d = a;
#define pindex(d) d = (int64_t)((uint64_t)first + i);
#define uneg(d, a, p) d = subtracted(0, a, p, OF_ALL);
#define pneg(d, a, p) d = subtracted(0, a, p, OF_EACH);
#define uadd(d, a, b, p) d = added(a, b, p, OF_ALL);
#define padd(d, a, b, p) d = added(a, b, p, OF_EACH);
#define usub(d, a, b, p) d = subtracted(a, b, p, OF_ALL);
#define psub(d, a, b, p) d = subtracted(a, b, p, OF_EACH);
#define umul(d, a, b, p) d = multiplied(a, b, p, OF_ALL);
#define pmul(d, a, b, p) d = multiplied(a, b, p, OF_EACH);
#define udiv(d, a, b, p) d = divided(a, b, p, OF_ALL);
#define pdiv(d, a, b, p) d = divided(a, b, p, OF_EACH);
#define umod(d, a, b, p) d = remaining(a, b, p, OF_ALL);
#define pmod(d, a, b, p) d = remaining(a, b, p, OF_EACH);
#define ueq(d, a, b) d = a == b;
#define peq(d, a, b) d = a == b;
#define ult(d, a, b) d = a < b;
#define plt(d, a, b) d = a < b;
#define ule(d, a, b) d = a <= b;
#define ple(d, a, b) d = a <= b;
#define uand(d, a, b) d = a != 0 && b != 0;
#define pand(d, a, b) d = a != 0 && b != 0;
#define uor(d, a, b) d = a != 0 || b != 0;
#define por(d, a, b) d = a != 0 || b != 0;
#define unot(d, a) d = a == 0;
#define pnot(d, a) d = a == 0;
#define enter(a, b, p) enter_range(a, b, p);
#define leave() on->many = 0;
#define mask(a) stays[n] = a != 0; END split();
#define flip() turn();
#define unmask() on--;
#define uask(d, c, s, p) d = value_at(found_cell(c, s, p, OF_ALL));
#define uput(c, s, v, p) \\
    { \\
        const uint64_t cell = found_cell(c, s, p, OF_ALL); \\
        if (cell != none) \\
            cells[cell] = v; \\
    }
#define pput(c, s, v, p) at_cells[n] = found_cell(c, s, p, OF_EACH); at_values[n] = v; END settle_puts(p);
#if RULE == rule_erew
#define pask(d, c, s, p) \\
    at_cells[n] = found_cell(c, s, p, OF_EACH); \\
    d = value_at(at_cells[n]); \\
    END note_readers(p);
#else
#define pask(d, c, s, p) d = value_at(found_cell(c, s, p, OF_EACH));
#endif
#define send()
#define reply()
#define vote(d) d = on->many > 0;
#define print(a) print_later(a);
#define jump(t) goto L##t;
#define jzero(a, t) \\
    if (a == 0) \\
        goto L##t;
#define halt() return closed(status_ended);
";

/// Where the program begins.
pub(crate) const ALONE_START: [u8; 317] = *b"
int main(int words, char **word) {
    (void)words;
    take_memory();
    if (!is_accepted(wrong_word(word)))
        return status_refused;
    int status = (int)run();
    if (fflush(stdout) != 0 || ferror(stdout))
        fputs(\"refused E17 WriteFailed\\n\", stderr), status = status_refused;
    return status;
}
";
