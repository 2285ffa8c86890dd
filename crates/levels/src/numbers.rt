use journal::limits::MOST_TRANSACTIONS;
use journal::number_set::NumberSet;

/// How many numbers there are: 0, and one for each transaction that can begin.
const COUNT: usize = MOST_TRANSACTIONS + 1;

/// A set of transaction numbers.
pub type Numbers = NumberSet<COUNT>;
