//! What stands in a row, and what the row counts of it.

ghost use Rattle.std.specs.Prelude.{◌≡◌, ◌<◌, ◌≤◌, ◌+◌, ◌^◌};
ghost use Rattle.dm_row.specs.Counts.{passed, led, count_ahead, weight_by};

/// What stands in a row: a result, with its weight, or a node that waits for so many results in front of it.
#[derive(Debug, Drop)]
pub enum Item<R, N> {
    Done(R, usize),
    Waits(N, usize),
}

/// What a row counts of the items in front of a place.
#[derive(Clone, Copy, Debug)]
pub(crate) struct Passed {
    /// How many results stand directly in front of the place.
    pub(crate) results: usize,
    /// How many nodes in front of it have all their operands.
    pub(crate) ready: usize,
    /// The weights of all results in front of it.
    pub(crate) weight: usize,
}

/// What a row counts of the items behind a place.
#[derive(Clone, Copy, Debug)]
pub(crate) struct Ahead {
    /// How many results stand directly behind the place.
    pub(crate) results: usize,
    /// How many operands the first node has, if there is one.
    pub(crate) operands: Option<usize>,
    /// How many nodes behind that one have all their operands.
    pub(crate) ready: usize,
}

impl<R, N> Item<R, N> {
    /// Its weight; a node has none.
    pub(crate) fn weight(&self) -> usize
        ensures { result ≡ weight_by self.now }
    {
        match self {
            Item::Done(_, weight) => *weight,
            Item::Waits(_, _) => 0,
        }
    }
}

impl Passed {
    /// The counts behind one item more.
    pub(crate) fn with<R, N>(self, item: &Item<R, N>) -> Passed
        requires results { self.results < 2 ^ 63 }
        requires ready { self.ready < 2 ^ 63 }
        requires weight { self.weight + weight_by item.now < 2 ^ 64 }
        ensures { result ≡ passed self item.now }
    {
        match item {
            Item::Done(_, weight) => Passed {
                results: self.results + 1,
                ready: self.ready,
                weight: self.weight + *weight,
            },
            Item::Waits(_, operands) => Passed {
                results: 0,
                ready: self.ready + (*operands <= self.results) as usize,
                weight: self.weight,
            },
        }
    }
}

impl Ahead {
    /// How many nodes have all their operands, where so many results stand in front of the place.
    pub(crate) fn count(self, results: usize) -> usize
        requires before { results < 2 ^ 62 }
        requires results { self.results < 2 ^ 62 }
        requires ready { self.ready < 2 ^ 62 }
        ensures { result ≡ count_ahead self results }
    {
        match self.operands {
            Some(operands) => (operands <= results + self.results) as usize + self.ready,
            None => self.ready,
        }
    }

    /// The counts in front of one item more.
    pub(crate) fn with<R, N>(self, item: &Item<R, N>) -> Ahead
        requires results { self.results < 2 ^ 62 }
        requires ready { self.ready < 2 ^ 62 }
        ensures { result ≡ led self item.now }
    {
        match item {
            Item::Done(_, _) => Ahead {
                results: self.results + 1,
                operands: self.operands,
                ready: self.ready,
            },
            Item::Waits(_, operands) => Ahead {
                results: 0,
                operands: Some(*operands),
                ready: self.count(0),
            },
        }
    }
}
