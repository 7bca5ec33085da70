//! Worked rows: the definitions give what was worked out by hand. Each function
//! does nothing, and each of its clauses is a row.

ghost use Rattle.shoot.specs.Request.{Request};
ghost use Rattle.shoot.specs.WorkedRows as rows;

/// What a mailbox answers to a list of calls.
#[tactic(auto, using(crate::proofs::WorkedRows::mailbox_row, crate::proofs::WorkedRows::nothing_to_collect, crate::proofs::WorkedRows::one_to_collect, crate::proofs::WorkedRows::collected_once, crate::proofs::WorkedRows::one_left_to_collect))]
pub fn worked_mailboxes()
    ensures mailbox_row { (a b c d : Request) → rows.mailbox_row a b c d }
    ensures nothing_to_collect { (a b : Request) → rows.nothing_to_collect a b }
    ensures one_to_collect { (a b : Request) → rows.one_to_collect a b }
    ensures collected_once { (a b : Request) → rows.collected_once a b }
    ensures one_left_to_collect { (a b : Request) → rows.one_left_to_collect a b }
{}

/// What the tickets of a hart answer to a list of calls.
#[tactic(auto, using(crate::proofs::WorkedRows::ticket_row, crate::proofs::WorkedRows::own_row, crate::proofs::WorkedRows::two_tickets_row, crate::proofs::WorkedRows::what_is_asked))]
pub fn worked_tickets()
    ensures ticket_row { rows.ticket_row }
    ensures own_row { rows.own_row }
    ensures two_tickets_row { rows.two_tickets_row }
    ensures what_is_asked { rows.what_is_asked }
{}

/// What the marks say of two open tickets and of two harts.
#[tactic(auto, using(crate::proofs::WorkedRows::open_numbers, crate::proofs::WorkedRows::who_is_named, crate::proofs::WorkedRows::who_was_posted_to, crate::proofs::WorkedRows::who_acknowledged, crate::proofs::WorkedRows::who_is_collected, crate::proofs::WorkedRows::one_is_done, crate::proofs::WorkedRows::only_who_was_posted_to))]
pub fn worked_marks()
    ensures open_numbers { rows.open_numbers }
    ensures who_is_named { rows.who_is_named }
    ensures who_was_posted_to { rows.who_was_posted_to }
    ensures who_acknowledged { rows.who_acknowledged }
    ensures who_is_collected { rows.who_is_collected }
    ensures one_is_done { rows.one_is_done }
    ensures only_who_was_posted_to { rows.only_who_was_posted_to }
{}

/// Which number is opened, and that what was said of an earlier ticket is not said of a later one
/// with its number.
#[tactic(auto, using(crate::proofs::WorkedRows::not_acked_again, crate::proofs::WorkedRows::not_collected_again, crate::proofs::WorkedRows::last_ticket, crate::proofs::WorkedRows::no_ticket, crate::proofs::WorkedRows::home_before_number, crate::proofs::WorkedRows::lowest_is_opened))]
pub fn worked_numbers()
    ensures not_acked_again { rows.not_acked_again }
    ensures not_collected_again { rows.not_collected_again }
    ensures last_ticket { rows.last_ticket }
    ensures no_ticket { rows.no_ticket }
    ensures home_before_number { rows.home_before_number }
    ensures lowest_is_opened { rows.lowest_is_opened }
{}

/// Bit h of a byte stands for hart h.
#[tactic(auto, using(crate::proofs::WorkedRows::harts_of_a_byte, crate::proofs::WorkedRows::byte_of_harts))]
pub fn worked_bytes()
    ensures harts_of_a_byte { rows.harts_of_a_byte }
    ensures byte_of_harts { rows.byte_of_harts }
{}

/// The words of four requests.
#[tactic(auto, using(crate::proofs::WorkedRows::large_page_of_asid_1, crate::proofs::WorkedRows::global_page_in_the_high_half, crate::proofs::WorkedRows::all, crate::proofs::WorkedRows::page_of_512_gib))]
pub fn worked_acknowledgements()
    ensures large_page_of_asid_1 { rows.large_page_of_asid_1 }
    ensures global_page_in_the_high_half { rows.global_page_in_the_high_half }
    ensures all { rows.all }
    ensures page_of_512_gib { rows.page_of_512_gib }
{}
