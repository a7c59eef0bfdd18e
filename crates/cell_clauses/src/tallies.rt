//! The clauses that count, cell by cell, how many nets use it.
ghost use Rattle.std.specs.Prelude.{◌≡◌, ◌≤◌, ◌<◌, ◌+◌, ◌*◌, [], ◌∷◌, flat_map};
ghost use Rattle.cell_clauses.specs.Clauses.{below, counts_at, first_at, kept_at, raised_at, steps_at, tallies_at};
ghost use Rattle.cell_clauses.specs.Places.{has, lacks, tally_at, use_at};
ghost use Rattle.fpga_types.specs.declared.limits.TheConstants.{NET_LIMIT};
ghost use Rattle.route_encode.specs.Adding.{Adds, HasRoom};
ghost use Rattle.sat_clause.specs.declared.limits.TheConstants.{VARIABLE_LIMIT};

use route_encode::add_clause;
use sat_clause::{Formula, Lit};

/// How many nets, at most 65,535, and cells a window has, and how many tracks there are. The
/// variables that say which cells nets use, and those that count these nets, are together at most
/// 100,000,000.
#[derive(Clone, Copy)]
pub struct Sizes {
    pub nets: u32,
    pub cells: u32,
    /// At least 1.
    pub width: u32,
    ghost few_nets: { nets ≤ NET_LIMIT },
    ghost some_tracks: { 1 ≤ width },
    ghost few: { nets * cells + (nets + 1) * cells * width ≤ VARIABLE_LIMIT },
}

impl Sizes {
    /// How many variables say which cells nets use, and count these.
    pub fn count(self) -> u32
        ensures { result ≡ self.nets * self.cells + (self.nets + 1) * self.cells * self.width }
    {
        self.nets * self.cells + (self.nets + 1) * self.cells * self.width
    }

    /// How many clauses count the nets.
    pub(crate) fn clause_count(self) -> u32
        ensures { result ≡ self.nets * self.cells + self.nets * self.cells * self.width * 2 }
    {
        self.nets * self.cells + self.counted() * 2
    }

    /// How many literals these clauses have, at most.
    pub(crate) fn lit_count(self) -> u64
        ensures { result ≡ self.nets * self.cells * 2 + self.nets * self.cells * self.width * 5 }
    {
        u64::from(self.nets * self.cells) * 2 + u64::from(self.counted()) * 5
    }

    /// How often a net is counted at a cell and a track.
    fn counted(self) -> u32
        ensures value { result ≡ self.nets * self.cells * self.width }
        ensures few { self.nets * self.cells + result ≤ VARIABLE_LIMIT }
    {
        self.nets * self.cells * self.width
    }

    /// The variable that says that a net uses a cell, by its place from 0 on.
    pub(crate) fn use_place(self, net: u32, cell: u32) -> u32
        requires net { net < self.nets }
        requires cell { cell < self.cells }
        ensures value { result ≡ use_at self.cells net cell }
        ensures within { result
            < self.nets * self.cells + (self.nets + 1) * self.cells * self.width }
    {
        net * self.cells + cell
    }

    /// The variable that says that of the first nets more than so many use a cell, by its place.
    fn tally_place(self, nets: u32, cell: u32, many: u32) -> u32
        requires nets { nets ≤ self.nets }
        requires cell { cell < self.cells }
        requires many { many < self.width }
        ensures value { result ≡ tally_at self.nets self.cells self.width nets cell many }
        ensures within { result
            < self.nets * self.cells + (self.nets + 1) * self.cells * self.width }
    {
        self.nets * self.cells + ((nets * self.cells + cell) * self.width + many)
    }
}

/// The literal that says what the variable at a place does.
pub(crate) fn has_lit(place: u32) -> Lit
    requires { place < VARIABLE_LIMIT }
    ensures { result ≡ has place }
{
    Lit {
        code: (place + 1) as i32,
    }
}

/// Its negation.
pub(crate) fn lacks_lit(place: u32) -> Lit
    requires { place < VARIABLE_LIMIT }
    ensures { result ≡ lacks place }
{
    Lit {
        code: -((place + 1) as i32),
    }
}

/// Adds for each net and each cell that it is counted there.
pub fn add_counts(formula: &mut Formula, sizes: Sizes)
    requires vars { sizes.nets * sizes.cells + (sizes.nets + 1) * sizes.cells * sizes.width
        ≤ formula.old.cnf.vars }
    requires room { HasRoom formula.old
        (flat_map (counts_at sizes.nets sizes.cells sizes.width) (below sizes.nets)) }
    ensures { Adds formula.old
        (flat_map (counts_at sizes.nets sizes.cells sizes.width) (below sizes.nets)) formula.new }
{
    for net in 0..sizes.nets {
        add_count(formula, sizes, net);
    }
}

/// Adds for each cell that a net is counted there.
fn add_count(formula: &mut Formula, sizes: Sizes, net: u32)
    requires net { net < sizes.nets }
    requires vars { sizes.nets * sizes.cells + (sizes.nets + 1) * sizes.cells * sizes.width
        ≤ formula.old.cnf.vars }
    requires room { HasRoom formula.old (counts_at sizes.nets sizes.cells sizes.width net) }
    ensures { Adds formula.old (counts_at sizes.nets sizes.cells sizes.width net) formula.new }
{
    for cell in 0..sizes.cells {
        add_tally(formula, sizes, net, cell);
    }
}

/// Adds that a net is counted at a cell.
fn add_tally(formula: &mut Formula, sizes: Sizes, net: u32, cell: u32)
    requires net { net < sizes.nets }
    requires cell { cell < sizes.cells }
    requires vars { sizes.nets * sizes.cells + (sizes.nets + 1) * sizes.cells * sizes.width
        ≤ formula.old.cnf.vars }
    requires room { HasRoom formula.old
        (tallies_at sizes.nets sizes.cells sizes.width net cell) }
    ensures { Adds formula.old (tallies_at sizes.nets sizes.cells sizes.width net cell) formula.new }
{
    add_first(formula, sizes, net, cell);
    add_steps(formula, sizes, net, cell);
}

/// Adds that a net which uses a cell is one of more than none that do.
fn add_first(formula: &mut Formula, sizes: Sizes, net: u32, cell: u32)
    requires net { net < sizes.nets }
    requires cell { cell < sizes.cells }
    requires vars { sizes.nets * sizes.cells + (sizes.nets + 1) * sizes.cells * sizes.width
        ≤ formula.old.cnf.vars }
    requires room { HasRoom formula.old
        (first_at sizes.nets sizes.cells sizes.width net cell ∷ []) }
    ensures { Adds formula.old
        (first_at sizes.nets sizes.cells sizes.width net cell ∷ []) formula.new }
{
    let used = lacks_lit(sizes.use_place(net, cell));
    let counted = has_lit(sizes.tally_place(net + 1, cell, 0));
    add_clause(formula, &[used, counted]);
}

/// Adds that a net is counted at a cell by how many of those before it use that.
fn add_steps(formula: &mut Formula, sizes: Sizes, net: u32, cell: u32)
    requires net { net < sizes.nets }
    requires cell { cell < sizes.cells }
    requires vars { sizes.nets * sizes.cells + (sizes.nets + 1) * sizes.cells * sizes.width
        ≤ formula.old.cnf.vars }
    requires room { HasRoom formula.old
        (flat_map (steps_at sizes.nets sizes.cells sizes.width net cell) (below sizes.width)) }
    ensures { Adds formula.old (flat_map
        (steps_at sizes.nets sizes.cells sizes.width net cell) (below sizes.width)) formula.new }
{
    for many in 0..sizes.width {
        add_step(formula, sizes, net, cell, many);
    }
}

/// Adds that a net is counted at a cell where more than so many of those before it use that.
fn add_step(formula: &mut Formula, sizes: Sizes, net: u32, cell: u32, many: u32)
    requires net { net < sizes.nets }
    requires cell { cell < sizes.cells }
    requires many { many < sizes.width }
    requires vars { sizes.nets * sizes.cells + (sizes.nets + 1) * sizes.cells * sizes.width
        ≤ formula.old.cnf.vars }
    requires room { HasRoom formula.old
        (steps_at sizes.nets sizes.cells sizes.width net cell many) }
    ensures { Adds formula.old
        (steps_at sizes.nets sizes.cells sizes.width net cell many) formula.new }
{
    add_kept(formula, sizes, net, cell, many);
    add_raised(formula, sizes, net, cell, many);
}

/// Adds that with one net more no fewer use the cell.
fn add_kept(formula: &mut Formula, sizes: Sizes, net: u32, cell: u32, many: u32)
    requires net { net < sizes.nets }
    requires cell { cell < sizes.cells }
    requires many { many < sizes.width }
    requires vars { sizes.nets * sizes.cells + (sizes.nets + 1) * sizes.cells * sizes.width
        ≤ formula.old.cnf.vars }
    requires room { HasRoom formula.old
        (kept_at sizes.nets sizes.cells sizes.width net cell many ∷ []) }
    ensures { Adds formula.old
        (kept_at sizes.nets sizes.cells sizes.width net cell many ∷ []) formula.new }
{
    let before = lacks_lit(sizes.tally_place(net, cell, many));
    let behind = has_lit(sizes.tally_place(net + 1, cell, many));
    add_clause(formula, &[before, behind]);
}

/// Adds that with a net that uses the cell one more does, and not more than there are tracks.
fn add_raised(formula: &mut Formula, sizes: Sizes, net: u32, cell: u32, many: u32)
    requires net { net < sizes.nets }
    requires cell { cell < sizes.cells }
    requires many { many < sizes.width }
    requires vars { sizes.nets * sizes.cells + (sizes.nets + 1) * sizes.cells * sizes.width
        ≤ formula.old.cnf.vars }
    requires room { HasRoom formula.old
        (raised_at sizes.nets sizes.cells sizes.width net cell many ∷ []) }
    ensures { Adds formula.old
        (raised_at sizes.nets sizes.cells sizes.width net cell many ∷ []) formula.new }
{
    let used = lacks_lit(sizes.use_place(net, cell));
    let before = lacks_lit(sizes.tally_place(net, cell, many));
    if many + 1 < sizes.width {
        let behind = has_lit(sizes.tally_place(net + 1, cell, many + 1));
        add_clause(formula, &[used, before, behind]);
        return;
    }
    add_clause(formula, &[used, before]);
}
