//! The interfaces for granting helpers and for watching evaluation.

/// An interval that may ask for a helper, with estimates of its cost.
#[derive(Clone, Copy, PartialEq, Eq, Debug)]
pub struct Asker {
    /// A number for the apply-to-each. It is always the same for the same one, and mostly different for others.
    pub mark: u64,
    /// The approximate number of elements of the sequences, including nested ones. `least` is the number in the smaller
    /// half.
    pub size: u64,
    pub least: u64,
    /// The fuel that is left.
    pub fuel: u64,
    /// The number of blocks that the machine has not ended yet.
    pub height: usize,
    /// How many more calls may be nested.
    pub levels: u64,
    /// The number of turns that are done.
    pub taken: usize,
}

/// Whether an interval should ask for a helper.
#[derive(Clone, Copy, PartialEq, Eq, Debug)]
pub enum Advice {
    Ask,
    /// It should ask unless its turns can be evaluated in columns.
    AskUnlessInColumns,
    Pass,
}

/// Grants helpers: threads that evaluate one half of an interval. `ask` may grant or refuse as it likes; replies don't
/// depend on it.
///
/// The other methods let an implementation decide by estimates. By default each interval asks.
pub trait Helpers {
    /// A granted helper. `done` returns it.
    type Permit;

    fn ask(&self) -> Option<Self::Permit>;

    fn done(&self, permit: Self::Permit);

    /// An evaluation begins.
    fn begin(&self) {}

    /// The evaluation has ended, with this fuel left.
    fn end(&self, _fuel: u64) {}

    /// Whether an interval should ask. Called once, before it asks.
    fn advise(&self, _asker: Asker) -> Advice {
        Advice::Ask
    }

    /// The number of blocks that the machine had not ended when the timed interval began, if one is timed.
    fn timed_at(&self) -> Option<usize> {
        None
    }

    /// The timed interval has ended, or the evaluation has. `fuel` is the fuel that is left.
    fn end_timed(&self, _fuel: u64) {}

    /// Whether an interval should ask again after one of its turns, if it has at least two left. `fuel` is the fuel
    /// that is left. `height` is the number of blocks not ended, without that of the turn.
    fn asks_again(&self, _fuel: u64, _height: usize) -> bool {
        false
    }

    /// Asks for a helper for this interval.
    fn ask_for(&self, _asker: Asker) -> Option<Self::Permit> {
        self.ask()
    }

    /// A half of an interval has ended, on any thread.
    fn end_half(&self) {}
}

/// Grants no helpers.
#[derive(Clone, Copy)]
pub struct NoHelpers;

/// The permit of `NoHelpers`, which never makes one.
pub struct NoPermit {
    seal: (),
}

impl Helpers for NoHelpers {
    type Permit = NoPermit;

    fn ask(&self) -> Option<NoPermit> {
        None
    }

    fn done(&self, permit: NoPermit) {
        let NoPermit { seal: () } = permit;
    }
}

/// A line or a half that is about to be evaluated.
#[derive(Clone, Copy, PartialEq, Eq, Debug)]
pub enum Place {
    Line(usize),
    Half(usize, usize),
}

/// Is called before each line and each half that is evaluated. It can watch an evaluation, or delay it.
pub trait Gate {
    fn enter(&self, place: Place);
}

/// A gate that does nothing.
#[derive(Clone, Copy)]
pub struct Free;

impl Gate for Free {
    fn enter(&self, _place: Place) {}
}
