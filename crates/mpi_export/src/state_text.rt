//! The text of the runtime: what a rank has. Written by `gate/mpi.py` from the files of `runtime/`.

/// What stands before the plan.
pub(crate) const HEAD: [u8; 2256] =
    *b"/* A plan for the bulk-synchronous machine, as a program in C11 over MPI.
 *
 *     mpicc -O3 -Wall -Wextra -pedantic plan.c -o plan
 *     mpirun -n 4 ./plan [--input FILE | --memory FILE] [--bound N] [--map identity|affine:A,B] [--trace [--outcome]]
 *
 * It runs on 1 to 1,024 ranks, and writes what `pramc run` writes, with --trace what `pramc trace` writes, and ends with the
 * same status: 0 it ended, 1 it faulted, 2 it was refused, 3 it met the bound. Input and output are rank 0's. The words that
 * ranks exchange, values, faults and counts are those of docs/MACHINE.md.
 *
 * What C, its compiler and MPI do isn't proved: the plan is, and that its words stand below. */
#include <ctype.h>
#include <inttypes.h>
#include <mpi.h>
#include <stdbool.h>
#include <stdio.h>
#include <stdlib.h>
#include <string.h>

enum rule { rule_erew, rule_crew, rule_common, rule_priority, rule_sum };

/* A shared declaration: a single cell, which has the subscript 0, or an array with its least and its greatest subscript. */
struct entry {
    enum { entry_cell, entry_array, entry_end } form;
    const char *name;
    int64_t low, high;
};

/* The words of instructions, as in a listing. */
enum word {
    op_mark, op_uset, op_pset, op_ucopy, op_pcopy, op_uneg, op_pneg, op_uadd, op_padd, op_usub, op_psub, op_umul, op_pmul,
    op_udiv, op_pdiv, op_umod, op_pmod, op_ueq, op_peq, op_ult, op_plt, op_ule, op_ple, op_uand, op_pand, op_uor, op_por,
    op_unot, op_pnot, op_pfrom, op_pindex, op_enter, op_leave, op_mask, op_flip, op_unmask, op_uask, op_pask, op_uput, op_pput,
    op_send, op_reply, op_vote, op_print, op_jump, op_jzero, op_halt
};

/* How many bits of a word a cell's number has, and the most bytes of an input, as the limits of the language are. For larger
 * arrays raise them: CELL_BITS to at most 31, and 2 to that power is at least the number of all cells. */
#define CELL_BITS 20
#define INPUT_BYTES 1048576
_Static_assert(CELL_BITS >= 1 && CELL_BITS <= 31, \"CELL_BITS is from 1 to 31\");

/* The plan. PROCS, the most processors of a range, and the bounds of arrays may be raised. The instructions are for the sizes
 * that the program was compiled for, and name entries, registers and each other by number: leave them as they are. */
";

/// What a rank has, the map, and memory.
pub(crate) const STATE: [u8; 3696] = *b"
/* ---- What a rank has */
enum { most_ranks = 1024, most_reads = 8, most_masks = 64, part = 8192 };
enum status { status_ended, status_faulted, status_refused, status_bound };
__extension__ typedef __int128 wide; /* sums of 64-bit values */
static int ranks, self;

/* The uniform part, which all ranks have alike: the count and the line of statements, the registers, the least index. */
static uint64_t count, line;
static int64_t *uniform, low;

/* This rank's processors are `own`, with room for `room`: the v-th of the range is rank v mod ranks'. Register r of the i-th is
 * column(of_each, r)[i]. */
static int64_t *registers;
static size_t room, own;

/* Those that are active, ascending: a list for the range, and one more for each mask that is on. */
static struct level {
    uint32_t *list;
    size_t many;
} levels[most_masks + 1], *on = levels;
static uint32_t *lists, *others; /* the lists, each with `room` places; and a place for one while it is made */

/* This rank's cells by offset, and the map of all cells to all places: factor * cell + shift. */
static int64_t *cells;
static uint64_t all_cells, all_places, *first_of, factor = 1, shift = 0, inverse;
static const uint64_t cell_bits = (UINT64_C(1) << CELL_BITS) - 1;
static const uint32_t none = UINT32_MAX;

static _Noreturn void stop(const char *why) {
    fprintf(stderr, \"%s\\n\", why);
    MPI_Abort(MPI_COMM_WORLD, status_refused);
    exit(status_refused);
}

/* Memory that is all 0, for at least one item. */
static void *fresh(size_t items, size_t size) {
    void *memory = calloc(items ? items : 1, size);
    if (!memory)
        stop(\"refused E16 OutOfMemory\");
    return memory;
}

/* Memory with room for so many items, in the place of one that has too little. What stood there is lost. */
static void *grown(void *memory, size_t *room_there, size_t needs, size_t size) {
    if (memory && needs <= *room_there)
        return memory;
    free(memory);
    *room_there = needs + needs / 2;
    return fresh(*room_there, size);
}

/* Instructions are of the uniform side, where all processors act as one, whose number is 0; or of the private one. */
enum side { of_all, of_each };

static int64_t *column(enum side side, int64_t number) {
    return side == of_all ? uniform + number : registers + (size_t)number * room;
}
static int64_t index_of(enum side side, size_t i) {
    return side == of_all ? 0 : (int64_t)((uint64_t)low + i * (uint64_t)ranks + (uint64_t)self);
}

/* Does this for each processor i that acts; where all do, by a loop without a list. */
#define EACH_ACTING(side, ...) \\
    const size_t acting = side == of_all ? 1 : on->many; \\
    const uint32_t *const those = on->list; \\
    if (side == of_all || acting == own) \\
        for (size_t i = 0; i < acting; i++) { __VA_ARGS__ } \\
    else \\
        for (size_t n = 0; n < acting; n++) { const size_t i = those[n]; __VA_ARGS__ }

/* The map's number of a cell, its offset in its module, and the module: number / ranks is a product with the inverse. */
static uint32_t number_of(uint64_t cell) { return (uint32_t)((factor * cell + shift) & (all_places - 1)); }
static uint32_t offset_of(uint64_t cell) { return (uint32_t)((wide)(number_of(cell) + UINT64_C(1)) * inverse >> 64); }
static int module_of(uint64_t cell) { return (int)(number_of(cell) - offset_of(cell) * (uint32_t)ranks); }

/* The cell of an entry at a subscript. */
static uint32_t cell_of(int64_t entry, int64_t subscript) {
    const uint64_t past = (uint64_t)subscript - (uint64_t)entries[entry].low;
    const bool is_there = past <= (uint64_t)entries[entry].high - (uint64_t)entries[entry].low;
    return is_there ? (uint32_t)(first_of[entry] + past) : none;
}
";

/// Faults, and the least key.
pub(crate) const FAULTS: [u8; 1486] = *b"
/* ---- Faults: a rank keeps the least key that it noted */
enum kind { overflow, divide_by_zero, out_of_range, too_wide, read_conflict, write_conflict };
enum place { place_all, place_processor, place_cell };

/* The parts of a key in the order in which keys are compared. A fault at a cell is a conflict. */
enum { key_count, key_position, key_place, key_number, key_kind, key_line, key_parts };
struct key {
    bool is;
    uint64_t of[key_parts];
};

/* A moment of a run: a statement by its count, its line, and a position in it. */
struct moment {
    uint64_t count, line, position;
};

#define SIGN (UINT64_C(1) << 63) /* turned round, numbers below 0 are before others */
static struct key noted = {false, {[key_number] = SIGN}};

static void keep(struct key *least, const struct key *key) {
    int at = 0;
    while (at < key_line && key->of[at] == least->of[at])
        at++;
    if (key->is && (!least->is || key->of[at] < least->of[at]))
        *least = *key;
}

static void note(struct moment at, enum place place, int64_t number, enum kind kind) {
    const struct key key = {true, {at.count, at.position, place, (uint64_t)number ^ SIGN, kind, at.line}};
    keep(&noted, &key);
}

static struct moment now(int64_t position) { return (struct moment){count, line, (uint64_t)position}; }
static void note_at(enum side side, int64_t position, size_t i, enum kind kind) {
    note(now(position), side == of_all ? place_all : place_processor, index_of(side, i), kind);
}
";

/// Values, the range and its masks.
pub(crate) const VALUES: [u8; 4171] = *b"
/* ---- Values: what an operation gives, and 0 where it faults. A floor division is by no 0 here, nor by -1. */
static int64_t divided(int64_t a, int64_t b) { return a / b - (a % b != 0 && (a < 0) != (b < 0)); }

/* The result of the operation of a uniform word; `fault` gets what is wrong with it. */
static inline int64_t computed(enum word word, int64_t a, int64_t b, int *fault) {
    int64_t to = 0;
    bool over = false;
    switch (word) {
    case op_ucopy: return a;
    case op_ueq: return a == b;
    case op_ult: return a < b;
    case op_ule: return a <= b;
    case op_uand: return a != 0 && b != 0;
    case op_uor: return a != 0 || b != 0;
    case op_unot: return a == 0;
    case op_uneg: over = __builtin_sub_overflow((int64_t)0, a, &to); break;
    case op_uadd: over = __builtin_add_overflow(a, b, &to); break;
    case op_usub: over = __builtin_sub_overflow(a, b, &to); break;
    case op_umul: over = __builtin_mul_overflow(a, b, &to); break;
    default: /* division, or what it leaves */
        if (b == 0)
            *fault = divide_by_zero;
        else if (b == -1)
            over = word == op_udiv && __builtin_sub_overflow((int64_t)0, a, &to);
        else
            to = word == op_udiv ? divided(a, b) : a - b * divided(a, b);
    }
    if (over)
        *fault = overflow;
    return over ? 0 : to;
}

/* A sum or, where `flip` is all ones, a difference of all processors' registers, where each fits: loops that vectors do. */
static inline bool is_added(int64_t *d, const int64_t *a, const int64_t *b, uint64_t flip) {
    uint64_t over = 0;
    for (size_t i = 0; i < own; i++) {
        const uint64_t x = (uint64_t)a[i], y = (uint64_t)b[i] ^ flip, sum = x + y - flip;
        over |= (x ^ sum) & (y ^ sum);
    }
    for (size_t i = 0; i < own && !(over & SIGN); i++)
        d[i] = (int64_t)((uint64_t)a[i] + ((uint64_t)b[i] ^ flip) - flip);
    return !(over & SIGN);
}

static inline void operate(enum side side, enum word word, int64_t to, int64_t left, int64_t right, int64_t position) {
    const int64_t *a = column(side, left), *b = column(side, right);
    int64_t *d = column(side, to);
    const bool is_plain = (word == op_uadd || word == op_usub) && side == of_each && on->many == own;
    if (is_plain && is_added(d, a, b, word == op_usub ? UINT64_MAX : 0))
        return;
    EACH_ACTING(side,
        int fault = -1;
        d[i] = computed(word, a[i], b[i], &fault);
        if (fault >= 0)
            note_at(side, position, i, (enum kind)fault);
    )
}

/* Gives the i-th processor first + i * step. */
static void fill(int64_t to, int64_t first, int64_t step) {
    int64_t *d = column(of_each, to);
    EACH_ACTING(of_each, d[i] = (int64_t)((uint64_t)first + i * (uint64_t)step);)
}

/* ---- The range and its masks */
static void set_width(uint64_t width) {
    own = (size_t)((width + (uint64_t)ranks - 1 - (uint64_t)self) / (uint64_t)ranks);
    on = levels;
    on->many = own;
}

static void enter(int64_t from, int64_t to, int64_t position) {
    const bool is_wide = from <= to && (uint64_t)to - (uint64_t)from >= PROCS;
    if (is_wide)
        note_at(of_all, position, 0, too_wide);
    low = from;
    set_width(is_wide || from > to ? 0 : (uint64_t)to - (uint64_t)from + 1);
    for (int64_t r = 0; r < PRIVATE; r++)
        memset(column(of_each, r), 0, own * sizeof(int64_t));
}

/* The place of a list has first those that the mask leaves active, and behind them the others, to be turned to. */
static uint32_t *place_of(const struct level *level) { return lists + (size_t)(level - levels) * room; }

static void mask(int64_t by) {
    const int64_t *flag = column(of_each, by);
    const struct level *whole = on++;
    size_t kept = 0;
    on->list = place_of(on);
    for (size_t n = 0; n < whole->many; n++) {
        const uint32_t i = whole->list[n];
        on->list[kept] = others[n - kept] = i;
        kept += flag[i] != 0;
    }
    on->many = kept;
    memcpy(on->list + kept, others, (whole->many - kept) * sizeof(uint32_t));
}
static void flip(void) {
    on->list = on->list == place_of(on) ? on->list + on->many : place_of(on);
    on->many = (on - 1)->many - on->many;
}
";
