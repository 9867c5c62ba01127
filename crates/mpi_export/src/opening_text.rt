//! The text of the runtime: the command line, and what the cells begin with. Written by `gate/mpi.py` from the files of `runtime/`.

/// The command line.
pub(crate) const OPTIONS: [u8; 2143] = *b"
/* ---- The command line and the input, which rank 0 judges for all */
static struct {
    const char *input, *memory;
    uint64_t bound;
    bool is_affine;
} options = {NULL, NULL, 1000000, false};

#define REFUSE(...) return fprintf(stderr, \"refused \" __VA_ARGS__), fputc('\\n', stderr), false

/* Whether a text is decimal digits, of a number that is at most `most`. */
static bool is_number(const char *text, size_t length, uint64_t most, uint64_t *number) {
    *number = 0;
    for (size_t i = 0; i < length; i++) {
        const uint64_t digit = (uint64_t)(text[i] - '0');
        if (digit > 9 || *number > (most - digit) / 10)
            return false;
        *number = 10 * *number + digit;
    }
    return length > 0;
}
static bool is_word_number(const char *word, uint64_t *number) { return is_number(word, strlen(word), UINT32_MAX, number); }

static bool is_map(const char *word) {
    const char *comma = strchr(word, ',');
    options.is_affine = strcmp(word, \"identity\") != 0;
    return !options.is_affine || (strncmp(word, \"affine:\", 7) == 0 && comma && is_word_number(comma + 1, &shift)
        && is_number(word + 7, (size_t)(comma - word) - 7, UINT32_MAX, &factor));
}

/* Takes the words of the command line; the one that is refused, or null. */
static const char *wrong_word(char **word) {
    bool is_told = false;
    for (const char *option = *++word; option; option = *++word) {
        if (strcmp(option, \"--trace\") == 0)
            tracing = true;
        else if (strcmp(option, \"--outcome\") == 0)
            is_told = true;
        else if (!word[1])
            return option;
        else if (strcmp(option, \"--input\") == 0)
            options.input = *++word;
        else if (strcmp(option, \"--memory\") == 0)
            options.memory = *++word;
        else if (strcmp(option, \"--bound\") == 0 && !is_word_number(*++word, &options.bound))
            return *word;
        else if (strcmp(option, \"--map\") == 0 ? !is_map(*++word) : strcmp(option, \"--bound\") != 0)
            return *word;
    }
    is_silent = tracing && !is_told;
    return options.input && options.memory ? \"--memory\" : NULL;
}
";

/// Texts of values.
pub(crate) const INPUT: [u8; 1357] = *b"
/* The values that cells begin with, in the order of the text: of two of one cell the last one counts. */
static struct gift {
    uint64_t cell;
    int64_t value;
} *gifts;
static uint64_t given;

/* The text, and the part of it that is left to be read. */
static char *text, *here, *end;

static bool is_blank(char it) { return it == ' ' || it == '\\t' || it == '\\n' || it == '\\r'; }
static bool is_dark(char it) { return !is_blank(it); }

/* Goes past bytes of a kind; how many they were. */
static size_t past(bool (*is_of)(char)) {
    const char *from = here;
    while (here < end && is_of(*here))
        here++;
    return (size_t)(here - from);
}

static bool is_value(const char *word, size_t length, int64_t *value) {
    uint64_t number;
    const bool minus = length && word[0] == '-';
    const bool fits = is_number(word + minus, length - minus, (uint64_t)INT64_MAX + minus, &number);
    *value = (int64_t)(minus ? 0 - number : number);
    return fits;
}

/* Takes all that is left as values, for as many cells from the first one on. */
static bool are_values(void) {
    for (past(is_blank); here < end; past(is_blank)) {
        const char *word = here;
        gifts[given].cell = given;
        if (!is_value(word, past(is_dark), &gifts[given++].value))
            REFUSE(\"E3 BadToken at %td\", word - text);
    }
    return true;
}
";

/// Texts of a memory, by names.
pub(crate) const MEMORY: [u8; 2408] = *b"
static bool is_of_name(char it) { return it == '_' || isalnum((unsigned char)it); }
static bool is_of_number(char it) { return it == '-' || isdigit((unsigned char)it); }
static bool is_of_line(char it) { return it != '\\n'; }
static bool is_of_code(char it) { return it != '\\n' && it != '#'; }

/* These take a byte, and a number, behind white space. Where it isn't there they go past the white space alone. */
static bool takes(char byte) { return past(is_blank), here < end && *here == byte && ++here; }
static bool takes_number(int64_t *number) {
    past(is_blank);
    char *word = here;
    const bool is_taken = is_value(word, past(is_of_number), number);
    here = is_taken ? here : word;
    return is_taken;
}

/* Takes a line: nothing, NAME = VALUES, or NAME[LOW..HIGH] = VALUES. */
static bool is_line(void) {
    past(is_blank);
    const char *name = here;
    const size_t length = past(is_of_name), before = given;
    if (!length && here == end)
        return true;
    const bool is_part = length && takes('[');
    past(is_blank);
    const char *place = here;
    int64_t k = 0, low = 0, high = 0;
    if (!length || (is_part && !(takes_number(&low) && takes('.') && *here == '.' && ++here && takes_number(&high) && takes(']')))
        || !takes('='))
        REFUSE(\"E3 BadToken at %td\", here - text);
    if (!are_values())
        return false;
    while (entries[k].form != entry_end && (strncmp(entries[k].name, name, length) != 0 || entries[k].name[length]))
        k++;
    if (entries[k].form == entry_end)
        REFUSE(\"E6 UnknownName at %td\", name - text);
    if (!is_part)
        low = entries[k].low, high = entries[k].high;
    if ((is_part && entries[k].form == entry_cell) || low > high || cell_of(k, low) == none || cell_of(k, high) == none)
        REFUSE(\"E6 UnknownName at %td\", place - text);
    if (given - before > (uint64_t)high - (uint64_t)low + 1)
        REFUSE(\"E11 InputTooLong\");
    for (uint64_t i = before; i < given; i++)
        gifts[i].cell = cell_of(k, low) + (i - before);
    return true;
}

/* Takes all lines, each without its comment. */
static bool are_lines(void) {
    for (char *const behind = end; here < behind; here++) {
        char *line = here;
        past(is_of_code);
        end = here, here = line;
        if (!is_line())
            return false;
        end = behind;
        past(is_of_line);
    }
    return true;
}
";

/// What the cells begin with, judged and spread.
pub(crate) const OPENING: [u8; 1742] = *b"
static bool is_text_read(const char *name) {
    FILE *file = strcmp(name, \"-\") == 0 ? stdin : fopen(name, \"rb\");
    here = text = fresh((size_t)INPUT_BYTES + 2, 1);
    const size_t length = file ? fread(text, 1, (size_t)INPUT_BYTES + 1, file) : 0;
    if (!file || ferror(file))
        REFUSE(\"P2 %s\", name);
    if (length > INPUT_BYTES)
        REFUSE(\"E2 TextTooLong\");
    for (size_t i = 0; i < length; i++)
        if ((unsigned char)text[i] >= 128)
            REFUSE(\"E1 NotAscii at %zu\", i);
    gifts = fresh(length / 2 + 1, sizeof(*gifts));
    end = text + length;
    return options.memory ? are_lines() : are_values();
}

static bool is_accepted(const char *wrong) {
    if (wrong)
        REFUSE(\"P1 %s\", wrong);
    if ((options.input || options.memory) && !is_text_read(options.memory ? options.memory : options.input))
        return false;
    if (ranks > most_ranks)
        REFUSE(\"E13 BadWorkers\");
    if (options.is_affine && factor % 2 == 0)
        REFUSE(\"E12 BadMap\");
    if (options.input && given > all_cells)
        REFUSE(\"E11 InputTooLong\");
    return true;
}

/* Gives each cell of this rank its value, from rank 0, in parts. */
static void spread(void) {
    static struct gift some[part];
    MPI_Bcast(&given, 1, MPI_UINT64_T, 0, MPI_COMM_WORLD);
    for (uint64_t from = 0; from < given; from += part) {
        const uint64_t few = given - from < part ? given - from : part;
        if (self == 0)
            memcpy(some, gifts + from, few * sizeof(*some));
        MPI_Bcast(some, 2 * (int)few, MPI_UINT64_T, 0, MPI_COMM_WORLD);
        for (uint64_t i = 0; i < few; i++)
            if (module_of(some[i].cell) == self)
                cells[offset_of(some[i].cell)] = some[i].value;
    }
}
";
