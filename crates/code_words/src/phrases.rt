//! The phrases, each once: what is said of a code, of a refused step, of an error of the system and
//! of a file that is of another kind.

// A line of an architecture.
pub const ARCHITECTURE_MISSING_LINE: &str =
    "the file ends, and one of the twelve keywords has no line";

pub const ARCHITECTURE_NO_NUMBER: &str =
    "a number, or behind Fc_type the word fractional or absolute, is due \
    here, and there is none or it is out of its range";

pub const ARCHITECTURE_PIN_FORM: &str =
    "a pin line has another form: inpin or outpin, class: N, then one or more sides";

pub const ARCHITECTURE_SEGMENT_LENGTH: &str =
    "a segment has no length: word, or a length that is not 1";

pub const ARCHITECTURE_NOT_UNIFORM: &str = "a channel width is not uniform";

pub const ARCHITECTURE_OTHER_WIDTH: &str = "this channel width differs from an earlier one";

pub const ARCHITECTURE_NO_PATTERN: &str =
    "the switch blocks are neither subset, nor wilton, nor universal";

pub const ARCHITECTURE_MIXED_CLASS: &str = "a class has pins of both directions";

pub const ARCHITECTURE_PAST_LIMIT: &str =
    "more pads at a place, more pins, or a higher class than are taken";

pub const ARCHITECTURE_REPEATED: &str = "this keyword stands on an earlier line";

pub const ARCHITECTURE_SPARSE_SEGMENT: &str = "a segment with Frac_cb or Frac_sb that is not 1";

// A line of a netlist.
pub const NETLIST_LINE_FORM: &str =
    "due are .global NETS, and .input NAME, .output NAME or .clb NAME, right below it \
    pinlist: NETS, and below that of a .clb subblock: lines";

pub const NETLIST_PIN_COUNT: &str =
    "a pinlist without exactly one word for each pin, or a pad on open";

pub const NETLIST_SAME_NAME: &str = "an earlier block has this name";

pub const NETLIST_DRIVERS: &str = "each net that is not global is to have exactly one driver";

pub const NETLIST_NO_SINK: &str = "the file ends, and a net has no sink";

pub const NETLIST_GLOBAL_PIN: &str = "an ordinary net on a pin that takes global nets alone";

pub const NETLIST_SHARED_CLASS: &str = "one net on two pins of a class";

pub const NETLIST_NO_PINLIST: &str = "a block without its pinlist";

pub const NETLIST_PAST_LIMIT: &str = "more blocks or more nets than are taken";

// A line of a placement.
pub const PLACEMENT_HEAD_FORM: &str =
    "due first is Netlist file: NAME Architecture file: NAME, and below it \
    Array size: X x Y logic blocks";

pub const PLACEMENT_NO_NUMBER: &str =
    "a number is due here, and there is none or it is out of its range";

pub const PLACEMENT_UNKNOWN_BLOCK: &str = "the netlist has no block of this name";

pub const PLACEMENT_REPEATED_BLOCK: &str = "the block of this name was placed on an earlier line";

pub const PLACEMENT_MISSING_BLOCK: &str = "the file ends, and a block of the netlist has no place";

pub const PLACEMENT_UNLAWFUL_PLACE: &str =
    "no place for this block: logic blocks go inside, pads on the edge and below io_rat";

pub const PLACEMENT_SHARED_SPOT: &str = "an earlier block stands here";

pub const PLACEMENT_PAST_LIMIT: &str = "an array that is larger than is taken";

// A line of a route.
pub const ROUTE_HEAD_FORM: &str =
    "due first is Array size: X x Y logic blocks, and below it Routing: alone on a line";

pub const ROUTE_LINE_FORM: &str =
    "due are Net N (NAME), below it elements as CHANX (X,Y) Track: N, and \
    Net N (NAME): global net connecting: with Block lines below it";

pub const ROUTE_NO_NUMBER: &str =
    "a number is due here, and there is none or it is out of its range";

pub const ROUTE_SPANNED_CHANNEL: &str =
    "a wire of several cells: each cell is to have a line of its own";

pub const ROUTE_STRAY_ELEMENT: &str = "an element outside of a net that has elements";

pub const ROUTE_NO_PLACE: &str = "a place outside of the array";

pub const ROUTE_PAST_LIMIT: &str = "an array that is larger, or more nets, than are taken";

// A line of a route that does not fit.
pub const FIT_OTHER_ARRAY: &str = "the array has another size than in the placement";

pub const FIT_MISSING_NET: &str =
    "the route ends, and an ordinary net of the netlist has no Net line";

pub const FIT_UNKNOWN_NET: &str =
    "the netlist has no such net, or it is global in one file and ordinary in the other";

pub const FIT_REPEATED_NET: &str = "this net stands earlier in the route";

pub const FIT_OTHER_SOURCE: &str = "this is not where the net's driver is";

pub const FIT_OTHER_SINK: &str = "this is not where a sink of the net is";

pub const FIT_SINK_NOT_ONCE: &str =
    "this sink was reached before, or the net ends before it has reached each sink";

pub const FIT_OTHER_PIN: &str =
    "no OPIN of the driver, no input for ordinary nets, or a SINK that is not its IPIN's";

pub const FIT_PIN_APART: &str = "the pin does not touch the channel cell that stands next to it";

pub const FIT_CELLS_APART: &str = "the cells of this channel and the one before it do not meet";

pub const FIT_REPEATED_ELEMENT: &str = "the net has been here before";

pub const FIT_LOOSE_BRANCH: &str = "a branch begins where the net has not been";

pub const FIT_SHARED_PIN: &str = "an earlier net has this pin";

pub const FIT_OUT_OF_ORDER: &str =
    "this line may not stand behind the one before it, or the net does not end at a sink";

pub const FIT_PAST_LIMIT: &str = "the nets take more channel cells together than are taken";

// A line of clauses.
pub const CLAUSE_HEAD_FORM: &str =
    "the line p cnf VARIABLES CLAUSES is missing, or stands here again";

pub const CLAUSE_CNF_NUMBER: &str =
    "a number of 64 bits, in the head line not below 0, is due here, and there is none";

pub const CLAUSE_VARIABLE: &str = "a variable above the number that the head line tells";

pub const CLAUSE_CLAUSE_COUNT: &str =
    "the clauses are not as many as the head line tells, or the last one has no 0";

pub const CLAUSE_SIZE_LIMIT: &str = "more variables or clauses than are taken";

// A line of a log.
pub const LOG_STEP_NUMBER: &str = "a word that is no number, or a clause without a number above 0";

pub const LOG_STEP_FORM: &str = "a line that neither adds nor deletes a clause";

pub const LOG_ID_ORDER: &str = "the number of an added clause is not above those before it";

pub const LOG_HINT_SIGN: &str = "a negative hint, and the clause has no literal to resolve on";

pub const LOG_NUMBER_LIMIT: &str = "a higher number of a clause or a variable than is taken";

// A line of a routed file.
pub const JUDGE_NOT_CONNECTED: &str = "no switch joins this wire, or pin, to the one before it";

pub const JUDGE_PAST_WIDTH: &str = "the track is not below the width";

pub const JUDGE_SHARED_WIRE: &str = "an earlier net has this wire";

pub const JUDGE_OFF_TRACE: &str = "the global route does not take the net through this cell";

pub const JUDGE_REPEATED_CELL: &str =
    "the net has been in this cell, and no branch begins here on its wire";

pub const JUDGE_MISSING_SINK: &str = "the net, or the file, ends before each sink is reached";

pub const JUDGE_UNFIT: &str =
    "the netlist and its placement give no such array or net, or the net no \
    such line or order of lines";

pub const JUDGE_PAST_REACH: &str = "more switches lead to the wire before this sink than the reach";

// A size that passes its limit.
pub const SIZE_FORMULA_CLAUSES: &str = "the problem has more clauses than are written";

pub const SIZE_GENERATED_NETS: &str = "there are more nets than blocks to drive them";

pub const SIZE_CLAUSES_OF_TURNS: &str =
    "the searches that take turns have more clauses together than are held";

// What is wrong with a line of a model.
pub const MODEL_NONE_FOUND: &str = "the solver has found no model";

pub const MODEL_NUMBER: &str = "a number is due and is none";

pub const MODEL_BEHIND_END: &str = "a number stands behind the 0 that ends the model";

pub const MODEL_VARIABLE: &str = "a literal of a variable that the clauses don't have";

pub const MODEL_BOTH_WAYS: &str = "a literal and its negation are both said to be true";

pub const MODEL_NO_END: &str = "the file ends, and no 0 has ended the model";

pub const FILE_SIZE: &str = "the file has more bytes than are read";

// What a code says otherwise where a routed file is judged within a reach.
pub const JUDGE_REPEATED_WIRE: &str = "the net has had this wire before, and no branch begins here";

// Why a step of a log is refused.
pub const STEP_UNKNOWN_HINT: &str = "a hint names a clause that is not there";

pub const STEP_OPEN_HINT: &str = "the clause of a hint has two or more open literals";

pub const STEP_TRUE_HINT: &str = "the clause of a hint is already true";

pub const STEP_TOO_FEW_HINTS: &str = "the hints end, and no clause was false";

pub const STEP_HINT_BEHIND_THE_LAST: &str = "a hint stands behind the clause that was false";

pub const STEP_UNKNOWN_DELETION: &str = "a deletion names a clause that is not there";

pub const STEP_NO_EMPTY_CLAUSE: &str = "the log ends before it comes to the empty clause";

pub const STEP_NO_GROUP: &str =
    "a clause with the negation of the first literal has no group of hints";

pub const STEP_STRAY_GROUP: &str =
    "a group of hints where none is due, or for a clause that had one";

pub const STEP_TOO_SHORT_GROUP: &str = "a group of hints ends, and no clause was false";

// What a file is instead, by its first bytes.
pub const FOREIGN_XML: &str =
    "The file begins as XML does, as those of later versions of VPR: read are the texts of \
    VPR 4.30, DIMACS and LRAT";

pub const FOREIGN_LATER: &str =
    "The file begins as those of VPR 8 and 9 do: tools/vtr makes one of VPR 4.30 of it, which is \
    read here";

pub const FOREIGN_PACKED: &str = "The file is packed with gzip, and is to be unpacked first";

pub const FOREIGN_WIDE: &str =
    "The file begins as UTF-16 does, and is to be a text of single bytes";

pub const FOREIGN_MARKED: &str =
    "The file begins with a byte order mark, which is to be taken away";

// Why the system refuses a file.
pub const ERROR_NOT_FOUND: &str = "no such file or folder";

pub const ERROR_PERMISSION_DENIED: &str = "no permission";

pub const ERROR_IS_A_DIRECTORY: &str = "it is a folder";

pub const ERROR_NOT_A_DIRECTORY: &str = "a part of its path is no folder";

pub const ERROR_INVALID_FILENAME: &str = "its name is too long";

pub const ERROR_FILESYSTEM_LOOP: &str = "its links lead in a circle";

pub const ERROR_READ_ONLY_FILESYSTEM: &str = "its file system is read only";

pub const ERROR_STORAGE_FULL: &str = "no space is left";

pub const ERROR_QUOTA_EXCEEDED: &str = "no space is left to this user";

pub const ERROR_FILE_TOO_LARGE: &str = "it would be larger than a file may be";

pub const ERROR_INTERRUPTED: &str = "the call was interrupted";

pub const ERROR_BROKEN_PIPE: &str = "nobody reads it any more";

pub const ERROR_OUT_OF_MEMORY: &str = "the system has no memory for it";

pub const ERROR_OTHER: &str = "the system gave another error";
