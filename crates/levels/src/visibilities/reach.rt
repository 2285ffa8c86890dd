ghost use Rattle.std.specs.Prelude.{◌≡◌, ℕ, ◌<◌, ◌≤◌, length, nat_lt};
ghost use Rattle.journal.specs.Limits.{most_transactions};
ghost use Rattle.journal.specs.NumberSet.{has};
ghost use Rattle.levels.specs.Rule.{from_place};
ghost use Rattle.levels.specs.Runs.{Once, member};

use crate::numbers::Numbers;

/// How many members stand up to the last marked one.
fn marked_length(members: &[u8], marked: &Numbers) -> usize
    ensures reach { (j : ℕ) → from_place (has marked.now) members.now (length members.now) j ≡ nat_lt j result }
    ensures within { result ≤ length members.now }
{
    members
        .iter()
        .rposition(|&member| marked.holds(member))
        .map_or(0, |place| place + 1)
}

/// The members up to the last marked one, of those that stand once in the list.
pub(crate) fn up_to_marked(members: &[u8], marked: &Numbers) -> Numbers
    ensures { (j : ℕ) → j < length members.now → member members.now j ≤ most_transactions → Once members.now j → has result (member members.now j) ≡ from_place (has marked.now) members.now (length members.now) j }
{
    let mut found = Numbers::none();
    for &member in &members[..marked_length(members, marked)] {
        found.insert(member);
    }
    found
}
