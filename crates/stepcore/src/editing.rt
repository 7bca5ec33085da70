//! Edits of the tables, and the tickets that they open.

ghost use Rattle.std.specs.Prelude.{◌≡◌, ◌<◌, false, true, length, IsTrue, IfOk, IfErr, Ok, OnOk, OnErr, slice_set, ℕ};
ghost use Rattle.pte.specs.Entry.{kind_of};
ghost use Rattle.spaces.specs.Applied.{holders_after, words_after_store};
ghost use Rattle.spaces.specs.Edits.{place_of};
ghost use Rattle.spaces.specs.Held.{IsDue, IsMemory};
ghost use Rattle.spaces.specs.Layout.{HasPlace};
ghost use Rattle.shoot.specs.Tickets.{after_open};
ghost use Rattle.history.specs.Due.{edit_reply, map_reply, stored_reply};
ghost use Rattle.history.specs.declared.event.Event.TheVariants.{Map, Flush};
ghost use Rattle.history.specs.declared.reply.Reply.{Reply as ReplyOf};
ghost use Rattle.history.specs.declared.reply.Reply.TheVariants as reply;
ghost use Rattle.stepcore.specs.State.{holders_in, tickets_at, words_in};
ghost use Rattle.stepcore.specs.Answers.{at_place, edit_in, is_place, is_scope, open_in, page_request, retires, request_of_scope};
ghost use Rattle.stepcore.specs.Changes.{Answers, event_of, is_accepted, is_change};

use crate::conditions::refuse;
use crate::machine::Machine;
use history::{Refusal, Reply, Scope, edit_refusal, opening_refusal};
use pte::{Kind, Page, Pte, PteFlags, What};
use spaces::{Edit, Place, Wish, apply, next_edit};

/// What the store of a Map is answered: whether the word is a pointer.
fn stored_reply(word: u64) -> Reply
    ensures reply { result ≡ stored_reply (kind_of word) }
    ensures accepted { is_accepted result ≡ true }
{
    match Pte(word).kind() {
        Kind::Table { ppn, .. } => Reply::Table(ppn),
        Kind::Invalid | Kind::Reserved | Kind::Leaf { .. } => Reply::Leaf,
    }
}

impl Machine {
    /// Makes a store that is due, and leaves all but the table memory.
    fn store(&mut self, edit: Edit)
        requires { IsDue self.old.memory edit }
        ensures layout { self.new.memory.layout ≡ self.old.memory.layout }
        ensures words { (ppn i : ℕ)
            → words_in self.new ppn i ≡ words_after_store (words_in self.old) edit ppn i }
        ensures holders { (ppn : ℕ)
            → holders_in self.new ppn ≡ holders_after (holders_in self.old) edit.place edit ppn }
        ensures others { self.new ≡ record self.old { memory = self.new.memory } }
    {
        apply(&mut self.memory, edit);
    }

    /// The store that is due for a wish, if its place exists and does not retire.
    fn due_edit(&self, hart: u8, wish: &Wish) -> Result<Edit, Refusal>
        ensures memory { IsMemory self.now.memory }
        ensures there { OnOk result (IsTrue (is_place self.now (place_of wish.now))) }
        ensures has { OnOk result (HasPlace self.now.memory.layout (place_of wish.now)) }
        ensures stays { OnOk result (retires self.now (place_of wish.now) ≡ false) }
        ensures due { IfOk result (IsDue self.now.memory) }
        ensures is { IfOk result (λ edit. edit_in self.now hart wish.now ≡ Ok edit) }
        ensures refuses { IfErr result (λ why. (opening : ReplyOf)
            → at_place self.now (place_of wish.now) (edit_reply
            (edit_in self.now hart wish.now) opening)
            ≡ reply.Refused why) }
        ensures no_map { IfErr result (λ why.
            at_place self.now (place_of wish.now) (map_reply (edit_in self.now hart wish.now))
            ≡ reply.Refused why) }
    {
        let place = wish.place();
        refuse(!self.is_place(place), Refusal::NoSpace)?;
        refuse(self.retires(place), Refusal::Retiring)?;
        match next_edit(&self.memory, hart, wish) {
            Ok(edit) => Ok(edit),
            Err(fault) => Err(edit_refusal(fault)),
        }
    }

    /// Makes the one store that is due next to map a page.
    pub(crate) fn map(
        &mut self,
        hart: u8,
        place: Place,
        page: Page,
        ppn: u64,
        flags: PteFlags,
    ) -> Result<Reply, Refusal>
        ensures { Answers self.old (Map hart place page ppn flags) result self.new }
    {
        page.recall();
        self.needs_hart(hart)?;
        let wish = Wish::Map {
            place,
            page,
            ppn,
            flags,
        };
        let edit = self.due_edit(hart, &wish)?;
        self.store(edit);
        Ok(stored_reply(edit.word()))
    }

    /// What the harts are asked to drop for a page.
    fn page_request(&self, place: Place, page: Page) -> What
        requires { IsTrue (is_place self.now place) }
        ensures { result ≡ page_request self.now place page }
    {
        match place {
            Place::Space(space) => What::PageOf(page, Some(self.space(space).asid)),
            Place::Kernel => What::PageOf(page, None),
        }
    }

    /// Opens a ticket of the hart. At a refusal nothing changes.
    pub(crate) fn open_ticket(&mut self, hart: u8, what: What, named: u8) -> Result<u32, Refusal>
        requires { hart < length self.old.harts }
        ensures opens { IfOk result (λ ticket. reply.Opened ticket ≡ open_in self.old hart named) }
        ensures refuses { IfErr result (λ refusal. reply.Refused refusal
            ≡ open_in self.old hart named) }
        ensures after { OnOk result (self.new ≡ record self.old {
          tickets =
              slice_set self.old.tickets hart (after_open (tickets_at self.old hart) what named);
        }) }
        ensures unchanged { OnErr result (self.new ≡ self.old) }
    {
        let tickets = &mut self.tickets[usize::from(hart)];
        match tickets.open(what, named) {
            Ok(ticket) => Ok(ticket),
            Err(fault) => Err(opening_refusal(fault)),
        }
    }

    /// Stores what a wish asks on the leaf of its page, 0 or other flags, and opens a ticket for
    /// the page.
    pub(crate) fn change(&mut self, hart: u8, wish: &Wish, named: u8) -> Result<Reply, Refusal>
        requires { is_change wish.now ≡ true }
        ensures { Answers self.old (event_of hart wish.now named) result self.new }
    {
        let page = wish.page();
        page.recall();
        self.needs_harts(hart, named)?;
        let edit = self.due_edit(hart, wish)?;
        let what = self.page_request(wish.place(), page);
        let ticket = self.open_ticket(hart, what, named)?;
        self.store(edit);
        Ok(Reply::Opened(ticket))
    }

    /// What the harts are asked to drop for a scope.
    fn scope_request(&self, scope: Scope) -> What
        requires { IsTrue (is_scope self.now scope) }
        ensures { result ≡ request_of_scope self.now scope }
    {
        match scope {
            Scope::Space(space) => What::SpaceOf(self.space(space).asid),
            Scope::All => What::All,
        }
    }

    /// Opens a ticket for a scope, with no store.
    pub(crate) fn flush(&mut self, hart: u8, scope: Scope, named: u8) -> Result<Reply, Refusal>
        ensures { Answers self.old (Flush hart scope named) result self.new }
    {
        self.needs_harts(hart, named)?;
        refuse(!self.is_scope(scope), Refusal::NoSpace)?;
        refuse(self.scope_retires(scope), Refusal::Retiring)?;
        let what = self.scope_request(scope);
        let ticket = self.open_ticket(hart, what, named)?;
        Ok(Reply::Opened(ticket))
    }
}
