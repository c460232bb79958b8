// Tickets in their list, by their numbers.
ghost use Rattle.std.specs.Prelude.{◌≡◌, ◌==◌, ◌-◌, ◌<◌, IsTrue, find, get_or, length, option_copied, position, vec_capacity};
ghost use Rattle.std.specs.List.Sorted.{IsStrictlySortedBy};
ghost use Rattle.container_table.specs.Lists.{remove_first};
ghost use Rattle.machine_tables.specs.Rising.{by_number};
ghost use Rattle.machine_tables.specs.declared.held.HeldTicket.{HeldTicket};

use crate::held::HeldTicket;

fn place_of(tickets: &[HeldTicket], number: u64) -> Option<usize>
    ensures { result ≡ position (λ t. t.number == number) tickets.now }
{
    tickets.iter().position(|t| t.number == number)
}

/// The ticket of that number.
pub fn numbered(tickets: &[HeldTicket], number: u64) -> Option<&HeldTicket>
    ensures { option_copied result ≡ find (λ t. t.number == number) tickets.now }
{
    tickets.iter().find(|t| t.number == number)
}

/// The same by halving, of tickets whose numbers rise.
pub fn halved(tickets: &[HeldTicket], number: u64) -> Option<&HeldTicket>
    requires { IsStrictlySortedBy by_number tickets.now }
    ensures { option_copied result ≡ find (λ t. t.number == number) tickets.now }
{
    match tickets.binary_search_by_key(&number, |t| t.number) {
        Ok(i) => Some(&tickets[i]),
        Err(_) => None,
    }
}

// Whether the last ticket's number is below that one.
fn ends_below(tickets: &[HeldTicket], number: u64) -> bool
    ensures { IsTrue result → (d : HeldTicket) → 0 < length tickets.now
        → (get_or tickets.now (length tickets.now - 1) d).number < number }
{
    match tickets.last() {
        Some(t) => t.number < number,
        None => true,
    }
}

/// Whether tickets that rise, where they do, rise on with that number.
pub fn rises_on(rises: bool, tickets: &[HeldTicket], number: u64) -> bool
    ensures before { IsTrue result → IsTrue rises }
    ensures on { IsTrue result → (d : HeldTicket) → 0 < length tickets.now
        → (get_or tickets.now (length tickets.now - 1) d).number < number }
{
    rises && ends_below(tickets, number)
}

/// The ticket of that number is gone.
pub fn remove(tickets: &mut Vec<HeldTicket>, number: u64)
    ensures items { tickets.new.items ≡ remove_first (λ t. t.number == number) tickets.old.items }
    ensures capacity { vec_capacity tickets.new ≡ vec_capacity tickets.old }
{
    if let Some(i) = place_of(tickets.as_slice(), number) {
        let _gone = tickets.remove(i);
    }
}
