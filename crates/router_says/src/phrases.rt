//! The phrases, each once. A blank, a stop or the like stands where it is said; what codes mean,
//! and how commands are used, is said by crates of their own.

// Between two of a kind, and behind a width.
pub(crate) const AND: &str = " and ";

pub(crate) const TO: &str = " to ";

pub(crate) const TRACKS: &str = " tracks: ";

pub(crate) const TRACKS_LEGAL: &str = " tracks is legal";

// A file, and what is at fault in it.
pub(crate) const FILE: &str = " file";

pub(crate) const FILE_UNREAD: &str = ": it can't be read";

pub(crate) const FILE_UNWRITTEN: &str = ": it can't be written";

pub(crate) const FILE_STANDARD_OUTPUT: &str = "standard output";

pub(crate) const FILE_CLAUSES: &str = ".cnf";

pub(crate) const FILE_LOG: &str = ".lrat";

pub(crate) const FAULT_NO_KEYWORD: &str = ", no ";

pub(crate) const FAULT_NET: &str = ": net ";

pub(crate) const FAULT_PIN: &str = ", pin ";

pub(crate) const FAULT_PINS: &str = ", pins ";

pub(crate) const FAULT_CLAUSE: &str = ": clause ";

pub(crate) const FAULT_NO_MODEL: &str =
    " has none of its literals; so it is no model of the clauses that encode writes of these \
    files at this width with the same options";

// Tracks that are not alike enough.
pub(crate) const ASYMMETRY_AT: &str = "not symmetric at ";

pub(crate) const ASYMMETRY_SO: &str = ", so ";

pub(crate) const ASYMMETRY_FORBIDS: &str = " can't be used";

pub(crate) const ASYMMETRY_NOT_SUBSET: &str = "the switch block type is not subset";

pub(crate) const ASYMMETRY_OTHER_PATTERN: &str =
    "the switch block type is neither subset nor universal";

pub(crate) const ASYMMETRY_OUTPUTS: &str = "an output pin does not open all of them (Fc_output)";

pub(crate) const ASYMMETRY_INPUTS: &str = "an input pin does not open all of them (Fc_input)";

pub(crate) const ASYMMETRY_PADS: &str = "a pad does not open all of them (Fc_pad)";

pub(crate) const OPTION_PIN: &str = "--pin";

pub(crate) const OPTION_SYMMETRY: &str = "--symmetry";

// A width that has no routing.
pub(crate) const REFUTED_ROUTING: &str = "No routing with ";

pub(crate) const REFUTED_UP_TO: &str = "up to ";

pub(crate) const REACH_WITHIN: &str = " within ";

pub(crate) const REACH_JOINS: &str = " joins of wires";

pub(crate) const LOG_REFUTES: &str = " refutes the clauses of one, ";

pub(crate) const LOG_EACH_REFUTES: &str = ".wK.lrat refutes ";

pub(crate) const LOG_EACH_CLAUSES: &str = ".wK.cnf for each width K.\n";

pub(crate) const LOG_CHECK: &str = "\nTo check that: gafkelam check ";

pub(crate) const LOG_CHECK_LAST: &str = "To check the last: gafkelam check ";

pub(crate) const ROUTE_GIVEN: &str = "\nThis holds for the global route of ";

pub(crate) const ROUTE_OTHERS: &str = ". To look among all of this placement: gafkelam least ";

// A width that is open.
pub(crate) const OPEN_ROUTING: &str = "Whether a routing with ";

pub(crate) const OPEN_LEARNED: &str = " is open: the search learned ";

pub(crate) const OPEN_TIME_OVER: &str = " clauses before its time was over.";

pub(crate) const OPEN_BUDGET_SPENT: &str = " clauses, its budget.";

pub(crate) const TRY_CONFLICTS: &str = "\nTry --conflicts ";

pub(crate) const TRY_SECONDS: &str = "\nTry more --seconds";

pub(crate) const TRY_OR: &str = ", or ";

pub(crate) const TRY_NO_BUDGET: &str = "\nNo greater budget is taken: ";

pub(crate) const TRY_HAND: &str = "hand ";

pub(crate) const TRY_ANOTHER_SOLVER: &str = " to another solver";

pub(crate) const TRY_OTHER_WIDTH: &str = "try another width.";

pub(crate) const TRY_GREATER_WIDTH: &str = "route at a greater width.";

// Rounds that have found no route, and a net that has no way.
pub(crate) const ROUNDS_ROUTE: &str = "Whether there is a route with ";

pub(crate) const ROUNDS_OPEN: &str = " tracks is open: the search found none in ";

pub(crate) const ROUNDS_MADE: &str = " rounds";

pub(crate) const ROUNDS_STOPPED: &str = " before its time was over.";

pub(crate) const ROUNDS_TRY: &str = "\nTry";

pub(crate) const ROUNDS_MORE: &str = " --rounds ";

pub(crate) const ROUNDS_TIME: &str = " more --seconds,";

pub(crate) const ROUNDS_FREE: &str = " --free,";

pub(crate) const ROUNDS_WIDER: &str = " a greater width or";

pub(crate) const ROUNDS_PLACEMENT: &str = " another placement.";

pub(crate) const NO_WAY_ROUTE: &str = "There is no route with ";

pub(crate) const NO_WAY_WHY: &str =
    " tracks: of the net that the first line names, none of the wires that its driver opens leads \
    to one that a sink of it opens, whatever the other nets have.\n";

pub(crate) const NO_WAY_OTHERS: &str =
    "Another width, other boxes or other switch blocks may have a way.";

// How many tracks a cut asks for, or clauses do, and how near that a route came.
pub(crate) const BOUND_ROUTING: &str = "No routing of this placement has fewer than ";

pub(crate) const BOUND_ANY_ROUTE: &str = " tracks, whatever its global route: ";

pub(crate) const BOUND_CROSSING: &str =
    " nets cross the cut that the first line names, and each takes a wire in one of its ";

pub(crate) const BOUND_CELLS: &str =
    " cells.\nThis placement may need more, and another one may do with fewer.";

pub(crate) const LEAST_FOUND: &str =
    " tracks are the least that this placement needs: a route with them was found, and ";

pub(crate) const LEAST_FOR: &str = " for as many, whatever the global route.";

pub(crate) const NEAR_NEEDS: &str = "This placement needs from ";

pub(crate) const NEAR_FOR: &str =
    " for the former, whatever the global route, and a route with the latter was found.\n\
    Whether fewer will do is open.";

pub(crate) const ASKS_CUT: &str = "the cut that the first line names asks";

pub(crate) const ASKS_CLAUSES: &str = "clauses over the cells of a window";

pub(crate) const ASKS_REFUTED: &str = ", refuted by ";

pub(crate) const ASKS: &str = " ask";

// The nets of a window.
pub(crate) const WINDOW_COLUMNS: &str = "\nThe window has the blocks of columns ";

pub(crate) const WINDOW_ROWS: &str = " and rows ";

pub(crate) const WINDOW_ALONE: &str = " By themselves ";

pub(crate) const WINDOW_NETS: &str = " of its nets need as many tracks:";

// What is seen of a width without a search.
pub(crate) const SEEN_CELL: &str = "\nMore nets than there are tracks want the cell";

pub(crate) const SEEN_CROWD: &str =
    "\nUnder subset switch blocks more nets than there are tracks share cells, each with each:";

pub(crate) const SEEN_TRACKLESS: &str = "\nNo track serves the net";

pub(crate) const SEEN_ALONE: &str = " even alone: its pins at";

pub(crate) const SEEN_APART: &str = " open none in common.";

pub(crate) const SEEN_COUNT: &str = "\nWith --count that is shown without a search.";

pub(crate) const SEEN_ORDER: &str =
    "\nTracks may change places here: with --symmetry the search keeps them in one order.";

pub(crate) const SEEN_CHANNEL: &str = " CHAN";

pub(crate) const SEEN_MORE: &str = " more";

// Memory that ran out.
pub(crate) const MEMORY_WIDTHS: &str = "Memory ran out. The widths K of which this run wrote ";

pub(crate) const MEMORY_REFUTED: &str = ".wK.lrat are refuted, and nothing else was found.";

pub(crate) const MEMORY_NOTHING: &str = "Memory ran out, so that nothing was found.";
