//! The phrases, each once: what is wrong with the words of a command, what it takes, and an
//! example of it. A blank or a stop alone stands where it is said.

// What a code says.
pub(crate) const CODE_NO_COMMAND: &str =
    "The first word is to be a command: route, sweep, global, least, bound, encode, decode, \
    core, check, verify, judge, gen, trial or picture.\n";

pub(crate) const CODE_OTHER_WORDS: &str = "The command does not take these words.\n";

pub(crate) const CODE_NUMBER: &str = "A number is missing or out of its range.\n";

pub(crate) const CODE_WRITTEN_OVER: &str =
    "A file that this would write is one that it reads: give another PREFIX.\n";

// Which options exclude each other, or need another.
pub(crate) const CLASH_OF_METHODS: &str = "--pin, --symmetry and --reach exclude one another.\n";

pub(crate) const CLASH_OF_ORDERS: &str = "--pin and --symmetry exclude each other.\n";

pub(crate) const CLASH_OF_COUNT: &str = "--count and --reach exclude each other.\n";

pub(crate) const CLASH_OF_SEARCHES: &str =
    "--pin, --symmetry and --reach exclude one another, and so do --count and --reach; \
    --seed is the seed of searches that take turns: give their number by --members.\n";

// What a command takes.
pub(crate) const TAKES_ROUTE: &str =
    "route ARCH NET PLACE ROUTE WIDTH PREFIX [--conflicts N] [--seconds T] [--keep] \
    [--count] [--pin | --symmetry | --reach L] [--members K] [--seed S] [--stats], \
    WIDTH and L from 1 to 64, K to 8";

pub(crate) const TAKES_SWEEP: &str =
    "sweep ARCH NET PLACE ROUTE MAX PREFIX [--conflicts N] [--seconds T] [--keep] \
    [--count] [--pin | --symmetry | --reach L] [--members K] [--seed S] [--stats], \
    MAX and L from 1 to 64, K to 8";

pub(crate) const TAKES_ENCODE: &str =
    "encode ARCH NET PLACE ROUTE WIDTH PREFIX [--pin | --symmetry | --reach L] [--names], \
    WIDTH and L from 1 to 64";

pub(crate) const TAKES_DECODE: &str =
    "decode ARCH NET PLACE ROUTE WIDTH MODEL PREFIX [--pin | --symmetry | --reach L], \
    WIDTH and L from 1 to 64";

pub(crate) const TAKES_CORE: &str =
    "core ARCH NET PLACE ROUTE WIDTH PREFIX [--conflicts N] [--seconds T] \
    [--pin | --symmetry] [--stats], WIDTH from 1 to 64";

pub(crate) const TAKES_CHECK: &str = "check CNF LRAT";

pub(crate) const TAKES_VERIFY: &str =
    "verify ARCH NET PLACE ROUTE WIDTH ROUTED [--reach L] [--all], WIDTH and L from 1 to 64";

pub(crate) const TAKES_JUDGE: &str =
    "judge ARCH NET PLACE WIDTH ROUTED [--strict], WIDTH from 1 to 64";

pub(crate) const TAKES_BOUND: &str = "bound ARCH NET PLACE";

pub(crate) const TAKES_GLOBAL: &str =
    "global ARCH NET PLACE WIDTH PREFIX [--free] [--from ROUTE] [--rounds N] [--seconds T] \
    [--stats], WIDTH from 1 to 64, N to 100,000";

pub(crate) const TAKES_LEAST: &str =
    "least ARCH NET PLACE MAX PREFIX [--free] [--from ROUTE] [--rounds N] [--seconds T] \
    [--stats], MAX from 1 to 64, N to 100,000";

pub(crate) const TAKES_GEN: &str =
    "gen SEED NX NETS PREFIX, NX from 1 to 100, NETS from 1 to 10,000";

pub(crate) const TAKES_TRIAL: &str =
    "trial SEED NX NETS MAX PREFIX [--conflicts N] [--seconds T] [--keep] \
    [--count | --reach L] [--stats], NX from 1 to 100, MAX and L to 64";

// A command as it may be given.
pub(crate) const EXAMPLE_ROUTE: &str =
    "route design.arch design.net design.place design.route 9 out";

pub(crate) const EXAMPLE_SWEEP: &str =
    "sweep design.arch design.net design.place design.route 12 out";

pub(crate) const EXAMPLE_ENCODE: &str =
    "encode design.arch design.net design.place design.route 9 out";

pub(crate) const EXAMPLE_DECODE: &str =
    "decode design.arch design.net design.place design.route 9 out.model out";

pub(crate) const EXAMPLE_CORE: &str =
    "core design.arch design.net design.place design_cells.route 8 out";

pub(crate) const EXAMPLE_CHECK: &str = "check out.cnf out.lrat";

pub(crate) const EXAMPLE_VERIFY: &str =
    "verify design.arch design.net design.place design.route 9 out.route";

pub(crate) const EXAMPLE_JUDGE: &str = "judge design.arch design.net design.place 9 out.route";

pub(crate) const EXAMPLE_BOUND: &str = "bound design.arch design.net design.place";

pub(crate) const EXAMPLE_GLOBAL: &str = "global design.arch design.net design.place 5 out";

pub(crate) const EXAMPLE_LEAST: &str = "least design.arch design.net design.place 12 out";

pub(crate) const EXAMPLE_GEN: &str = "gen 1 20 300 made";

pub(crate) const EXAMPLE_TRIAL: &str = "trial 1 20 300 12 out";

// What stands before these two.
pub(crate) const FORM_TAKES: &str = "Usage: gafkelam ";

pub(crate) const FORM_EXAMPLE: &str = "\nAs in: gafkelam ";

// What is wrong with a word, or missing.
pub(crate) const WRONG_COMMAND: &str = " is no command. ";

pub(crate) const WRONG_OPTION: &str = " has no option ";

pub(crate) const WRONG_NO_VALUE: &str = " is to have a value behind it.\n";

pub(crate) const WRONG_TOO_MANY: &str = " is one word too many.\n";

pub(crate) const WRONG_MISSING: &str = " is missing.\n";

pub(crate) const WRONG_RANGE_FROM: &str = " is to be a whole number from ";

pub(crate) const WRONG_RANGE_TO: &str = " to ";

pub(crate) const WRONG_RANGE_NOT: &str = ", and not ";
