//! The text of the runtime: what ranks exchange. Written by `gate/mpi.py` from the files of `runtime/`.

/// Headers, messages, and the trace.
pub(crate) const EXCHANGE: [u8; 4121] = *b"
/* ---- Exchanges: to each rank a header and words, and from each rank */
enum { header_words = 5 }; /* the four of a header, and how many words the message has */

static struct box {
    uint64_t headers[header_words * most_ranks], *words, all;
    int lengths[most_ranks], starts[most_ranks];
    size_t words_room;
} sent, got;

/* What an exchange is for. Only a send and a reply have words. */
enum purpose { for_send, for_reply, for_vote, for_close };
static bool tracing, is_silent; /* whether exchanges are told, and whether the outcome isn't */
static bool any_active;         /* whether a header of the last exchange had an active processor, */
static struct key least;        /* and the least key of its headers */
static uint64_t exchanges;
static uint64_t puts_to[most_ranks]; /* the puts that are held, by the rank that they go to */

static uint64_t halves(uint64_t first, uint64_t second) { return (first & UINT32_MAX) | second << 32; }
static uint64_t *header_of(struct box *box, int rank) { return box->headers + header_words * rank; }
static uint64_t puts_of(int rank) { return header_of(&got, rank)[2] >> 32; }

static void write_header(uint64_t *header, uint64_t puts, bool is_active, int length) {
    const uint64_t *of = noted.of, is_conflict = of[key_place] == place_cell;
    header[0] = halves(of[key_count], of[key_position]);
    header[1] = of[key_number] ^ SIGN;
    header[2] = halves(of[key_line], puts);
    header[3] = noted.is | is_conflict << 1 | of[key_kind] << 2 | of[key_place] << 5 | (uint64_t)is_active << 9;
    header[4] = (uint64_t)length;
}

static void read_header(int rank) {
    const uint64_t *header = header_of(&got, rank);
    const struct key key = {header[3] & 1, {header[0] & UINT32_MAX, header[0] >> 32, header[3] >> 5 & 3, header[1] ^ SIGN,
        header[3] >> 2 & 7, header[2] & UINT32_MAX}};
    keep(&least, &key);
    any_active = any_active || (header[3] >> 9 & 1);
    got.lengths[rank] = (int)header[4];
}

/* Where each message starts, and room for their words. */
static void lay_out(struct box *box) {
    box->all = 0;
    for (int j = 0; j < ranks; j++) {
        box->starts[j] = (int)box->all;
        box->all += (size_t)box->lengths[j];
        if (box->all > INT32_MAX)
            stop(\"more words in an exchange than MPI counts\");
    }
    box->words = grown(box->words, &box->words_room, box->all, sizeof(uint64_t));
}

/* A line of the trace: the words of each rank. */
static void trace(enum purpose purpose) {
    static const char *const told[] = {\"send\", \"reply\", \"vote\", \"close\"};
    static uint64_t words[2 * most_ranks];
    uint64_t most = 0;
    MPI_Gather(&sent.all, 1, MPI_UINT64_T, words, 1, MPI_UINT64_T, 0, MPI_COMM_WORLD);
    MPI_Gather(&got.all, 1, MPI_UINT64_T, words + ranks, 1, MPI_UINT64_T, 0, MPI_COMM_WORLD);
    if (self != 0)
        return;
    printf(\"%\" PRIu64 \" %s\", exchanges, told[purpose]);
    for (int i = 0; i < 2 * ranks; i++) {
        printf(\"%s %\" PRIu64, i == 0 ? \" sent\" : i == ranks ? \" received\" : \"\", words[i]);
        most = words[i] > most ? words[i] : most;
    }
    printf(\" h %\" PRIu64 \"\\n\", most);
}

/* Exchanges headers, and at a send or a reply the words of `sent`, which is laid out. Whether the run is over: a statement before
 * this one has faulted. */
static bool exchange(enum purpose purpose, bool is_active) {
    const bool has_words = purpose == for_send || purpose == for_reply;
    sent.all = has_words ? sent.all : 0;
    for (int j = 0; j < ranks; j++)
        write_header(header_of(&sent, j), puts_to[j], is_active, has_words ? sent.lengths[j] : 0);
    MPI_Alltoall(sent.headers, header_words, MPI_UINT64_T, got.headers, header_words, MPI_UINT64_T, MPI_COMM_WORLD);
    least.is = any_active = false;
    for (int j = 0; j < ranks; j++)
        read_header(j);
    lay_out(&got);
    if (has_words)
        MPI_Alltoallv(sent.words, sent.lengths, sent.starts, MPI_UINT64_T, got.words, got.lengths, got.starts, MPI_UINT64_T,
            MPI_COMM_WORLD);
    exchanges++;
    if (tracing)
        trace(purpose);
    return least.is && least.of[key_count] < count;
}
";

/// Cells that are met again, and the write rules.
pub(crate) const JOINS: [u8; 1681] = *b"
/* ---- The cells that were met in this turn, each with a number: a table of at least twice as many places as can be met */
static struct met {
    uint32_t cell, turn, number;
} *table;
static uint32_t last_place, turn;

static void next_turn(void) {
    if (++turn == 0) /* once round: what stands there would be taken for this turn's */
        memset(table, 0, ((size_t)last_place + 1) * sizeof(*table)), turn = 1;
}

/* The number of a cell; `next` where it is met for the first time. It is looked for at its own place first. */
static inline uint32_t met(uint32_t cell, uint32_t next) {
    const uint32_t step = (uint32_t)(cell * UINT64_C(0x9E3779B97F4A7C15) >> 32) | 1;
    uint32_t at = cell & last_place;
    while (table[at].turn == turn && table[at].cell != cell)
        at = (at + step) & last_place;
    if (table[at].turn != turn)
        table[at] = (struct met){cell, turn, next};
    return table[at].number;
}

/* ---- The write rules: two entries of one cell, joined */
struct writers {
    wide value;
    int64_t index;
    uint32_t cell;
    bool is_conflict;
};

static void join(struct writers *into, const struct writers *with) {
    if (RULE == rule_sum)
        into->value += with->value;
    else if (RULE == rule_common)
        into->is_conflict = into->is_conflict || with->is_conflict || into->value != with->value;
    else
        into->is_conflict = RULE != rule_priority;
    if (RULE != rule_sum && with->index == into->index && with->value < into->value)
        into->value = with->value;
    if (with->index >= into->index)
        return;
    into->index = with->index;
    into->value = RULE == rule_sum ? into->value : with->value;
}
";

/// The reads and writes that are held.
pub(crate) const HELD: [u8; 2595] = *b"
/* ---- What is held, in the order in which cells were first named: the writes of one put, and up to eight reads */
static struct writers *held;
static uint32_t writes;
static bool is_put_held;
static struct moment put_at;

/* A cell that is asked for: the word, the rank that has it, and the place of its answer among those of that rank. */
static struct {
    uint64_t word;
    uint32_t place;
    int module;
} *list;
static uint32_t listed, asks_to[most_ranks];

static struct read {
    enum side side;
    int64_t to;
    struct moment at;
    uint32_t *asked; /* by processor: the number of its cell in the list, or none */
} reads[most_reads];
static size_t asks;

static inline void hold_write(uint32_t cell, int64_t index, int64_t value) {
    const struct writers one = {value, index, cell, false};
    const uint32_t number = met(cell, writes);
    if (number < writes)
        join(&held[number], &one);
    else
        held[writes++] = one, puts_to[module_of(cell)]++;
}

/* A uniform write is rank 0's alone. */
static void put(enum side side, int64_t entry, int64_t subscript, int64_t value, int64_t position) {
    const int64_t *at = column(side, subscript), *what = column(side, value);
    is_put_held = true;
    put_at = now(position);
    next_turn();
    EACH_ACTING(side,
        const uint32_t cell = cell_of(entry, at[i]);
        if (cell == none)
            note_at(side, position, i, out_of_range);
        else if (side == of_each || self == 0)
            hold_write(cell, index_of(side, i), what[i]);
    )
}

/* The number in the list of a cell that is asked for by a read. */
static inline uint32_t list_ask(uint32_t cell, uint64_t read) {
    const uint32_t number = met(cell, listed);
    if (number < listed) {
        list[number].word |= UINT64_C(1) << (CELL_BITS + 3); /* two processors ask */
        return number;
    }
    list[listed].word = cell | read << CELL_BITS;
    list[listed].module = module_of(cell);
    list[listed].place = asks_to[list[listed].module]++;
    return listed++;
}

static void ask(enum side side, int64_t to, int64_t entry, int64_t subscript, int64_t position) {
    const int64_t *at = column(side, subscript);
    int64_t *d = column(side, to);
    uint32_t *asked = reads[asks].asked;
    reads[asks] = (struct read){side, to, now(position), asked};
    next_turn();
    EACH_ACTING(side,
        const uint32_t cell = cell_of(entry, at[i]);
        asked[i] = cell == none ? none : list_ask(cell, asks);
        if (cell == none)
            note_at(side, position, i, out_of_range), d[i] = 0;
    )
    asks++;
}
";

/// A send and a reply, from the side of the processors.
pub(crate) const SENDING: [u8; 1799] = *b"
/* ---- A send and a reply, from the side of the processors */
enum { put_words = RULE == rule_sum ? 4 : 3 };

/* Lays out what is held: to each rank its puts, and behind them its asks. */
static void pack(void) {
    uint64_t *next[most_ranks], *asks_at[most_ranks];
    for (int j = 0; j < ranks; j++) {
        const uint64_t words = put_words * puts_to[j] + asks_to[j];
        sent.lengths[j] = words < INT32_MAX ? (int)words : INT32_MAX;
    }
    lay_out(&sent);
    for (int j = 0; j < ranks; j++) {
        next[j] = sent.words + sent.starts[j];
        asks_at[j] = next[j] + put_words * puts_to[j];
    }
    for (const struct writers *put = held; put < held + writes; put++) {
        uint64_t *words = next[module_of(put->cell)];
        next[module_of(put->cell)] += put_words;
        words[0] = put->cell | (uint64_t)put->is_conflict << CELL_BITS;
        words[1] = (uint64_t)put->index;
        words[2] = (uint64_t)put->value;
        if (RULE == rule_sum)
            words[3] = (uint64_t)(put->value >> 64);
    }
    for (uint32_t i = 0; i < listed; i++)
        asks_at[list[i].module][list[i].place] = list[i].word;
}

static int64_t answer(uint32_t number) { return (int64_t)got.words[(uint32_t)got.starts[list[number].module] + list[number].place]; }

/* Exchanges the answers, which are laid out, and gives them to the registers that wait for them. Whether the run is over. */
static bool is_over_at_reply(void) {
    if (exchange(for_reply, false))
        return true;
    for (const struct read *read = reads; read < reads + asks; read++) {
        const uint32_t *asked = read->asked;
        int64_t *to = column(read->side, read->to);
        EACH_ACTING(read->side, if (asked[i] != none) to[i] = answer(asked[i]);)
    }
    asks = listed = 0;
    return false;
}
";

/// A send, from the side of the module.
pub(crate) const MODULE: [u8; 3464] = *b"
/* ---- A send, from the side of the module */
static struct writers *joined; /* the entries of different cells */
static size_t joined_room;
static uint32_t *joined_at;    /* by offset: 1 and the number of the cell's entry among the joined ones, or 0 */
static unsigned char *readers; /* by offset, under exclusive reads: a bit for each read that a processor makes of the cell */

static struct writers put_in(const uint64_t *words) {
    const wide low_half = RULE == rule_sum ? (wide)words[2] : (wide)(int64_t)words[2];
    const wide value = RULE == rule_sum ? (wide)(int64_t)words[3] * ((wide)1 << 64) + low_half : low_half;
    return (struct writers){value, (int64_t)words[1], (uint32_t)(words[0] & cell_bits), words[0] >> CELL_BITS & 1};
}

/* Joins the puts of all ranks for each cell, and leaves in it what its writers come to. */
static void settle_puts(void) {
    uint32_t different = 0;
    joined = grown(joined, &joined_room, got.all / put_words, sizeof(*joined));
    for (int j = 0; j < ranks; j++) {
        for (uint64_t i = 0; i < puts_of(j); i++) {
            const struct writers put = put_in(got.words + got.starts[j] + put_words * i);
            uint32_t *number = &joined_at[offset_of(put.cell)];
            if (*number)
                join(&joined[*number - 1], &put);
            else
                joined[(*number = ++different) - 1] = put;
        }
    }
    for (const struct writers *it = joined; it < joined + different; it++) {
        const uint32_t offset = offset_of(it->cell);
        joined_at[offset] = 0;
        if (RULE == rule_sum && (it->value < INT64_MIN || it->value > INT64_MAX))
            note(put_at, place_cell, it->cell, overflow);
        else if (it->is_conflict)
            note(put_at, place_cell, it->cell, write_conflict);
        else
            cells[offset] = (int64_t)it->value;
    }
}

/* Notes which processors read together. */
static void note_readers(uint64_t word) {
    const uint64_t cell = word & cell_bits, number = word >> CELL_BITS & (most_reads - 1);
    unsigned char *bits = &readers[offset_of(cell)];
    if (reads[number].side == of_all)
        return;
    if (word >> (CELL_BITS + 3) & 1 || *bits >> number & 1)
        note(reads[number].at, place_cell, (int64_t)cell, read_conflict);
    *bits |= (unsigned char)(1 << number);
}

/* Lays out the answers. */
static void answer_asks(void) {
    for (int j = 0; j < ranks; j++) {
        sent.lengths[j] = got.lengths[j] - (int)(put_words * puts_of(j));
        for (int i = got.lengths[j] - sent.lengths[j]; RULE == rule_erew && i < got.lengths[j]; i++)
            note_readers(got.words[got.starts[j] + i]);
    }
    lay_out(&sent);
    for (int j = 0; j < ranks; j++) {
        const uint64_t *words = got.words + got.starts[j] + put_words * puts_of(j);
        for (int i = 0; i < sent.lengths[j]; i++) {
            const uint32_t offset = offset_of(words[i] & cell_bits);
            sent.words[sent.starts[j] + i] = (uint64_t)cells[offset];
            if (RULE == rule_erew)
                readers[offset] = 0;
        }
    }
}

/* Exchanges what is held. Whether the run is over: never where a put is held. */
static bool is_over_at_send(void) {
    pack();
    if (exchange(for_send, false) && !is_put_held)
        return true;
    settle_puts();
    answer_asks();
    is_put_held = false;
    writes = 0;
    memset(puts_to, 0, sizeof(puts_to)), memset(asks_to, 0, sizeof(asks_to));
    return false;
}
";
