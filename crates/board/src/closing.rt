//! What the two ends of each ring carried, once the ports have come back.

ghost use Rattle.std.specs.Prelude.{◌≡◌, ◌≤◌, ◌<◌, ◌*◌, [], ◌∷◌, ℕ, All, IfSome, IsSome, IsTrue, None, is_some, length, map, slice_set, vec_capacity};
ghost use Rattle.atomic_table.specs.Seated.{TableId};
ghost use Rattle.board.specs.Ports.{element};
ghost use Rattle.board.specs.Together.{KnowsItself, ShareAState};
ghost use Rattle.board.specs.Reports.{pairs_of};
ghost use Rattle.board.specs.Rows.{AreEnds, AreLinked, IsPairOf, items_at};

use crate::outbox::Outbox;
use crate::port::HartPort;
use crate::receiver::Receiver;
use crate::report::PairReport;
use views::{Gathered, Words};

/// Takes an end out of a row. None is left in its place.
fn take_of<T>(row: &mut Vec<Option<T>>, column: u8) -> Option<T>
    requires { column < length row.old.items }
    ensures taken { result ≡ element row.old.items column }
    ensures after { row.new.items ≡ slice_set row.old.items column None }
{
    row[usize::from(column)].take()
}

/// Takes an end out of the rows. All other ends stay.
fn take_out<T>(rows: &mut Vec<Vec<Option<T>>>, number: u8, column: u8) -> Option<T>
    requires row { number < length rows.old.items }
    requires column { column < length (items_at rows.old.items number) }
    ensures taken { result ≡ element (items_at rows.old.items number) column }
    ensures others { (r c : ℕ) → (r ≡ number → c ≡ column → ⊥)
        → element (items_at rows.new.items r) c ≡ element (items_at rows.old.items r) c }
    ensures count { length rows.new.items ≡ length rows.old.items }
    ensures counts { (r : ℕ) → length (items_at rows.new.items r)
        ≡ length (items_at rows.old.items r) }
{
    let row = &mut rows[usize::from(number)];
    take_of(row, column)
}

/// What became of the requests of one hart to another, whose ends are taken out of the rows. All
/// other ends stay.
fn close_pair(
    outboxes: &mut Vec<Vec<Option<Outbox>>>,
    inboxes: &mut Vec<Vec<Option<Receiver>>>,
    sender: u8,
    receiver: u8,
) -> Option<PairReport>
    requires out_row { sender < length outboxes.old.items }
    requires out_column { receiver < length (items_at outboxes.old.items sender) }
    requires in_row { receiver < length inboxes.old.items }
    requires in_column { sender < length (items_at inboxes.old.items receiver) }
    requires there { IsTrue (is_some (element (items_at outboxes.old.items sender) receiver)) }
    requires linked { AreLinked outboxes.old.items inboxes.old.items sender receiver }
    ensures some { IsSome result }
    ensures pair { IfSome result (λ pair. (pair.sender ≡ sender) × (pair.receiver ≡ receiver)) }
    ensures report { IfSome result (λ pair. IsPairOf outboxes.old.items inboxes.old.items pair) }
    ensures outs_kept { (r c : ℕ) → (r ≡ sender → c ≡ receiver → ⊥)
        → element (items_at outboxes.new.items r) c ≡ element (items_at outboxes.old.items r) c }
    ensures ins_kept { (r c : ℕ) → (r ≡ receiver → c ≡ sender → ⊥)
        → element (items_at inboxes.new.items r) c ≡ element (items_at inboxes.old.items r) c }
    ensures count { (length outboxes.new.items ≡ length outboxes.old.items)
        × (length inboxes.new.items ≡ length inboxes.old.items) }
    ensures out_counts { (r : ℕ) → length (items_at outboxes.new.items r)
        ≡ length (items_at outboxes.old.items r) }
    ensures in_counts { (r : ℕ) → length (items_at inboxes.new.items r)
        ≡ length (items_at inboxes.old.items r) }
{
    let outbox = take_out(outboxes, sender, receiver)?;
    let inbox = take_out(inboxes, receiver, sender)?;
    Some(inbox.into_report(outbox, sender, receiver))
}

/// What became of the requests of each hart to each other one, by sender and then by receiver.
pub(crate) fn pair_reports(
    mut pairs: Vec<PairReport>,
    mut outboxes: Vec<Vec<Option<Outbox>>>,
    mut inboxes: Vec<Vec<Option<Receiver>>>,
    harts: u8,
) -> Vec<PairReport>
    requires ends { AreEnds harts outboxes.items inboxes.items }
    requires empty { pairs.items ≡ [] }
    requires room { harts * harts ≤ vec_capacity pairs }
    ensures pairs { map (λ pair. (pair.sender, pair.receiver)) result.items ≡ pairs_of harts harts }
    ensures each { All (IsPairOf outboxes.items inboxes.items) result.items }
{
    for sender in 0..harts {
        for receiver in 0..harts {
            if receiver == sender {
                continue;
            }
            let Some(pair) = close_pair(&mut outboxes, &mut inboxes, sender, receiver) else {
                continue;
            };
            pairs.push_reserved(pair);
        }
    }
    pairs
}

/// Takes a port apart. Its seat is gathered with the others, and its ends are left.
fn take_apart(
    port: HartPort,
    seats: &mut Gathered,
    words: &Words,
) -> (Vec<Option<Outbox>>, Vec<Option<Receiver>>)
    requires same { (seats.old.table_id ≡ words.now.table_id)
        × (port.table ≡ words.now.table_id) }
    ensures table { seats.new.table_id ≡ seats.old.table_id }
    ensures views { seats.new.views ≡ port.view ∷ seats.old.views }
    ensures ends { (result.0.items ≡ port.outboxes) × (result.1.items ≡ port.inboxes) }
    ensures own { KnowsItself port }
{
    let (seat, _, outs, ins) = port.into_parts();
    seats.add(words, seat);
    (outs, ins)
}

/// The ends of the ports, in the ports' order. The seats of the ports are gathered, so there is one
/// state of the board with the views of all.
pub(crate) fn gather(
    mut ports: Vec<HartPort>,
    mut outboxes: Vec<Vec<Option<Outbox>>>,
    mut inboxes: Vec<Vec<Option<Receiver>>>,
) -> (Vec<Vec<Option<Outbox>>>, Vec<Vec<Option<Receiver>>>)
    requires empty { (outboxes.items ≡ []) × (inboxes.items ≡ []) }
    requires room { (length ports.items ≤ vec_capacity outboxes)
        × (length ports.items ≤ vec_capacity inboxes) }
    requires one_table { (table : TableId) × All (λ port. port.table ≡ table) ports.items }
    ensures outboxes { map (λ row. row.items) result.0.items
        ≡ map (λ port. port.outboxes) ports.items }
    ensures inboxes { map (λ row. row.items) result.1.items
        ≡ map (λ port. port.inboxes) ports.items }
    ensures together { ShareAState ports.items }
{
    let Some(last) = ports.pop() else {
        return (outboxes, inboxes);
    };
    let (seat, memory, last_outs, last_ins) = last.into_parts();
    let words = &memory.shared;
    let mut seats = Gathered::of(seat);
    for port in ports {
        let (outs, ins) = take_apart(port, &mut seats, words);
        outboxes.push_reserved(outs);
        inboxes.push_reserved(ins);
    }
    seats.stand(words);
    outboxes.push_reserved(last_outs);
    inboxes.push_reserved(last_ins);
    (outboxes, inboxes)
}
