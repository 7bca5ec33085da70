//! A machine that threads share under one lock.

ghost use Rattle.std.specs.Prelude.{All, ◌≡◌, ℕ, ◌+◌, ◌<◌, ◌≤◌, [], ◌∷◌, ◌++◌, List, length, map, slice_index_or, slice_set, Err, IfOk, OnOk, OnErr, ◌↔◌};
ghost use Rattle.spaces.specs.Limits.{MeetsLimits};
ghost use Rattle.spaces.specs.declared.configuration.TheConstants.{MAX_FRAMES};
ghost use Rattle.history.specs.Setup.{setup_of};
ghost use Rattle.stepcore.specs.Stands.{Stands};
ghost use Rattle.harts.specs.Books.{history_of, IsDueAfterSome};
ghost use Rattle.harts.specs.Turns.{IsInterleaving};

use crate::blank::{Blank, List, Turns};
use crate::book::{Book, turn_of};
use crate::named::Named;
use spaces::{Config, OpenFault};
use std::alloc::{AllocError, Global};
use std::marker::{Model, PhantomData};
use std::sync::{Mutex, Wait};
use stepcore::{Event, Machine, Reply};

/// What lies under the lock: a book, and the list of each tally, for contracts alone. The book's
/// history is an interleaving of the lists.
#[derive(Drop)]
struct Kept<C: Named> {
    book: Book<C>,
    lists: Vec<List>,
}

impl<C: Named> Model for Kept<C> {
    ghost use Rattle.std.specs.Prelude.{◌≡◌, List, map};
    ghost use Rattle.history.specs.declared.event.Event.{Event};
    ghost use Rattle.history.specs.declared.reply.Reply.{Reply};
    ghost use Rattle.harts.specs.Turns.{IsInterleaving};

    ghost Value = { List (Event × Reply) };

    ghost view = { λ k. k.book };

    ghost invariant = { λ k. (map (λ l. l.half.name) k.lists.items ≡ C.lists)
        × IsInterleaving (map (λ l. l.half.list) k.lists.items) k.book };
}

impl<C: Named> Kept<C> {
    /// One event, which is kept with its reply, in the history and in the list of the tally, if it
    /// was answered.
    fn call(&mut self, mine: &mut Tally<C>, event: Event) -> Result<Reply, AllocError>
        ensures due { IfOk result (λ reply. IsDueAfterSome (setup_of C.config) event reply) }
        ensures appended { IfOk result (λ reply. self.new ≡ self.old ++ (event, reply) ∷ []) }
        ensures unchanged { OnErr result (self.new ≡ self.old) }
        ensures ok { IfOk result (λ reply. mine.new.turns.list
            ≡ mine.old.turns.list ++ (event, reply) ∷ []) }
        ensures err { OnErr result (mine.new.turns.list ≡ mine.old.turns.list) }
        ensures same { mine.new.turns.name ≡ mine.old.turns.name }
    {
        let asked = &event;
        let reply = self.book.note(*asked)?;
        let number = mine.number;
        push_to(
            self.lists.as_mut_slice(),
            number,
            &mut mine.turns,
            &turn_of(asked, &reply),
        );
        Ok(reply)
    }
}

/// Appends a turn to the list of that number, and to the tally's.
fn push_to(lists: &mut [List], number: usize, turns: &mut Turns, turn: &(Event, Reply))
    requires within { number < length lists.old }
    requires named { slice_index_or (map (λ l. l.half.name) lists.old) number 0 ≡ turns.old.name }
    ensures count { length lists.new ≡ length lists.old }
    ensures names { map (λ l. l.half.name) lists.new ≡ map (λ l. l.half.name) lists.old }
    ensures same { slice_index_or (map (λ l. l.half.list) lists.old) number [] ≡ turns.old.list }
    ensures lists { map (λ l. l.half.list) lists.new
        ≡ slice_set (map (λ l. l.half.list) lists.old) number (turns.old.list ++ turn.now ∷ []) }
    ensures turns { turns.new.list ≡ turns.old.list ++ turn.now ∷ [] }
    ensures name { turns.new.name ≡ turns.old.name }
{
    lists[number].half.push(turns, turn)
}

/// A machine under a lock. Whenever the lock is free, the machine stands at the history kept beside
/// it. `C` names the configuration and the lists of the tallies, for contracts alone.
#[derive(Drop)]
pub struct Locked<C: Named> {
    lock: Mutex<Kept<C>>,
}

/// Has, for contracts alone, the list of its turns: the events called with it, each with its reply,
/// the oldest first.
#[derive(Drop)]
pub struct Tally<C: Named> {
    number: usize,
    /// The list of its turns. It has no bytes.
    pub turns: Turns,
    of: PhantomData<C>,
    ghost within: { number < length C.lists },
    ghost named: { slice_index_or C.lists number 0 ≡ turns.name },
}

unsafe impl<C: Named + Send> Send for Kept<C> {}

unsafe impl<C: Named + Send> Send for Tally<C> {}

unsafe impl<C: Named + Send> Sync for Locked<C> {}

impl<C: Named> Locked<C> {
    /// A machine of a configuration under a lock, and one tally for each list of the blank, whose
    /// turns are none. `BadLayout` exactly if `Config::check` says no, `NoMemory` if there is not
    /// enough memory. `C` names the configuration and the lists.
    pub fn open(
        alloc: Global,
        blank: Blank,
        config: &Config,
    ) -> Result<(Locked<C>, Vec<Tally<C>>), OpenFault>
        requires config { C.config ≡ config.now }
        requires lists { C.lists ≡ blank }
        ensures bad_layout { (result ≡ Err OpenFault.BadLayout)
            ↔ (¬ MeetsLimits MAX_FRAMES config.now) }
        ensures limits { OnOk result (MeetsLimits MAX_FRAMES config.now) }
        ensures each { IfOk result (λ r. map (λ tally. tally.turns.name) r.1.items ≡ C.lists) }
        ensures none { IfOk result (λ r. All (λ tally. tally.turns.list ≡ []) r.1.items) }
    {
        let book = Book::open(alloc, config)?;
        let Blank { lists, turns } = blank;
        let tallies = tallies_of(alloc, turns)?;
        let locked = Locked {
            lock: Mutex::new(Kept { book, lists }),
        };
        Ok((locked, tallies))
    }

    /// Takes the lock for one event, which is kept with its reply. The reply is due after some
    /// lawful history of the configuration, and the tally's list is the old one followed by the
    /// event with the reply. `AllocError` if there is no memory to keep the event; the tally is
    /// then the same, and the machine too.
    pub fn call(
        &self,
        rt: &impl Wait,
        tally: &mut Tally<C>,
        event: Event,
    ) -> Result<Reply, AllocError>
        ensures due { IfOk result (λ reply. IsDueAfterSome (setup_of C.config) event reply) }
        ensures ok { IfOk result (λ reply. tally.new.turns.list
            ≡ tally.old.turns.list ++ (event, reply) ∷ []) }
        ensures err { OnErr result (tally.new.turns.list ≡ tally.old.turns.list) }
        ensures same { tally.new.turns.name ≡ tally.old.turns.name }
    {
        self.lock.lock(rt).call(tally, event)
    }

    /// The machine, and the history at which it stands, the oldest event first: an interleaving of
    /// the lists of the tallies. Asks for all tallies of this lock, in the order in which `open`
    /// gave them.
    pub fn into_parts(self, tallies: Vec<Tally<C>>) -> (Machine, Vec<(Event, Reply)>)
        requires all { map (λ tally. tally.turns.name) tallies.items ≡ C.lists }
        ensures stands { Stands (setup_of C.config) result.0 (history_of result.1.items) }
        ensures woven { IsInterleaving (map (λ tally. tally.turns.list) tallies.items)
            result.1.items }
    {
        let Kept { book, lists } = self.lock.into_inner();
        agree(lists, tallies);
        book.into_parts()
    }
}

/// The tallies of these lists of turns, in order.
fn tallies_of<C: Named>(alloc: Global, turns: Vec<Turns>) -> Result<Vec<Tally<C>>, AllocError>
    requires names { map (λ t. t.name) turns.items ≡ C.lists }
    requires empty { All (λ t. t.list ≡ []) turns.items }
    ensures names { IfOk result (λ r. map (λ tally. tally.turns.name) r.items ≡ C.lists) }
    ensures none { IfOk result (λ r. All (λ tally. tally.turns.list ≡ []) r.items) }
{
    let mut tallies = Vec::with_capacity(alloc, turns.len())?;
    for one in turns {
        tallies.push(Tally {
            number: tallies.len(),
            turns: one,
            of: PhantomData,
        })?;
    }
    Ok(tallies)
}

/// The tallies have the lists that lie under the lock.
fn agree<C: Named>(mut lists: Vec<List>, mut tallies: Vec<Tally<C>>)
    requires { map (λ l. l.half.name) lists.items ≡ map (λ tally. tally.turns.name) tallies.items }
    ensures { map (λ l. l.half.list) lists.items ≡ map (λ tally. tally.turns.list) tallies.items }
{
    while let Some(mut list) = lists.pop() {
        let Some(mut tally) = tallies.pop() else {
            break;
        };
        list.half.agree(&mut tally.turns);
    }
}
