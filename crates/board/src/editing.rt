//! Edits of tables by their home.

ghost use Rattle.std.specs.Prelude.{◌≡◌, Ok, IsTrue, [], true, false};
ghost use Rattle.pte.specs.Entry.{kind_of};
ghost use Rattle.spaces.specs.declared.wishes.Wish.TheVariants as wish;
ghost use Rattle.spaces.specs.Edits.{place_of};
ghost use Rattle.spaces.specs.Layout.{HasPlace};
ghost use Rattle.history.specs.Spaces.{asid_in};
ghost use Rattle.board.specs.Ports.{name_of};
ghost use Rattle.board.specs.Tables.{after_edit, after_map, after_store, due_store, edit_answer, has_place, is_map, map_answer, mapped_by};

use crate::mapped::Mapped;
use crate::port::HartPort;
use history::{Refusal, edit_refusal, opening_refusal};
use pte::{Kind, Page, Pte, PteFlags, What};
use spaces::{Edit, MapFault, Place, Wish};
use views::{decide, store};

/// What a step of mapping stored, by its word.
fn mapped(word: u64) -> Mapped
    ensures { result ≡ mapped_by (kind_of word) }
{
    match Pte(word).kind() {
        Kind::Table { ppn, .. } => Mapped::Table(ppn),
        Kind::Invalid | Kind::Reserved | Kind::Leaf { .. } => Mapped::Leaf,
    }
}

impl HartPort {
    ghost use Rattle.pte.specs.declared.address.What.TheVariants as request;
    ghost use Rattle.board.specs.Calls as call;
    ghost use Rattle.board.specs.Calls.{LeadsTo};

    fn has(&self, place: Place) -> bool
        ensures test { result ≡ has_place self.now.setup place }
        ensures there { IsTrue result → HasPlace self.now.setup.layout place }
    {
        match place {
            Place::Space(space) => usize::from(space) < self.config.spaces.len(),
            Place::Kernel => true,
        }
    }

    /// What harts drop for a page of a place.
    fn page_request(&self, place: Place, page: Page) -> What
        requires { HasPlace self.now.setup.layout place }
        ensures { result ≡ request.PageOf page (asid_in self.now.setup [] place) }
    {
        match place {
            Place::Space(space) => {
                What::PageOf(page, Some(self.config.spaces[usize::from(space)].asid))
            }
            Place::Kernel => What::PageOf(page, None),
        }
    }

    /// The store that a wish takes, or why none is due, by the home's own words. It is not made.
    fn due(&mut self, wish: &Wish) -> Result<Edit, MapFault>
        requires { HasPlace self.old.setup.layout (place_of wish.now) }
        ensures answer { result ≡ due_store self.old wish.now }
        ensures unchanged { self.new ≡ self.old }
    {
        let HartPort {
            config,
            memory,
            seat,
            hart,
            used,
            ..
        } = self;
        decide(&memory.shared, seat, config, *hart, *used, wish)
    }

    /// Makes the store of a map that is due.
    fn store_map(&mut self, edit: &Edit, wish: &Wish)
        requires map { is_map wish.now ≡ true }
        requires place { HasPlace self.old.setup.layout (place_of wish.now) }
        requires due { due_store self.old wish.now ≡ Ok edit.now }
        ensures after { self.new ≡ after_store self.old wish.now 0 (Ok edit.now) }
        ensures same { name_of self.new ≡ name_of self.old }
    {
        let HartPort {
            config,
            memory,
            seat,
            used,
            ..
        } = self;
        store(&memory.shared, seat, config, used, edit, wish, 0);
    }

    /// Makes the one store that is due next to map a page to a PPN: a pointer to a new table, after
    /// which the same step is due again, or the leaf. Refused with `NoSpace`, else as
    /// `spaces::next_map_edit`, nothing is stored.
    #[tactic(auto, unfolding(crate::specs::Calls::LeadsTo))]
    pub fn map_step(
        &mut self,
        place: Place,
        page: Page,
        ppn: u64,
        flags: PteFlags,
    ) -> Result<Mapped, Refusal>
        ensures answer { result ≡ map_answer self.old (wish.Map place page ppn flags) }
        ensures after { self.new ≡ after_map self.old (wish.Map place page ppn flags) }
        ensures call { LeadsTo (call.MapStep place page ppn flags) self.old self.new }
        ensures same { name_of self.new ≡ name_of self.old }
    {
        if !self.has(place) {
            return Err(Refusal::NoSpace);
        }
        let wish = Wish::Map {
            place,
            page,
            ppn,
            flags,
        };
        let edit = match self.due(&wish) {
            Ok(edit) => edit,
            Err(fault) => return Err(edit_refusal(fault)),
        };
        self.store_map(&edit, &wish);
        Ok(mapped(edit.word()))
    }

    /// Opens a ticket for a page and makes the one store of an edit of it.
    fn edit(&mut self, wish: &Wish, named: u8) -> Result<u32, Refusal>
        requires no_map { is_map wish.now ≡ false }
        ensures answer { result ≡ edit_answer self.old wish.now named }
        ensures after { self.new ≡ after_edit self.old wish.now named }
        ensures same { name_of self.new ≡ name_of self.old }
    {
        let Some(harts) = self.named_harts(named) else {
            return Err(Refusal::NoHart);
        };
        let place = wish.place();
        if !self.has(place) {
            return Err(Refusal::NoSpace);
        }
        let edit = match self.due(wish) {
            Ok(edit) => edit,
            Err(fault) => return Err(edit_refusal(fault)),
        };
        let what = self.page_request(place, wish.page());
        let HartPort {
            config,
            memory,
            seat,
            used,
            tickets,
            ..
        } = self;
        let ticket = match tickets.open_for(what, &harts) {
            Ok(ticket) => ticket,
            Err(fault) => return Err(opening_refusal(fault)),
        };
        store(&memory.shared, seat, config, used, &edit, wish, ticket);
        Ok(ticket)
    }

    /// Stores 0 on the leaf of a page, and opens a ticket for the page. Bit h of `named` stands for
    /// hart h. Refused with `NoHart` or `NoSpace`, else as `spaces::unmap_edit`, else with
    /// `HomeNotNamed` or `NoTicket`, nothing is stored.
    #[tactic(auto, unfolding(crate::specs::Calls::LeadsTo))]
    pub fn unmap(&mut self, place: Place, page: Page, named: u8) -> Result<u32, Refusal>
        ensures answer { result ≡ edit_answer self.old (wish.Unmap place page) named }
        ensures after { self.new ≡ after_edit self.old (wish.Unmap place page) named }
        ensures call { LeadsTo (call.Unmap place page named) self.old self.new }
        ensures same { name_of self.new ≡ name_of self.old }
    {
        let wish = Wish::Unmap { place, page };
        self.edit(&wish, named)
    }

    /// Stores other flags on the leaf of a page, and opens a ticket for the page. Bit h of `named`
    /// stands for hart h. Refused with `NoHart` or `NoSpace`, else as `spaces::protect_edit`, else
    /// with `HomeNotNamed` or `NoTicket`, nothing is stored.
    #[tactic(auto, unfolding(crate::specs::Calls::LeadsTo))]
    pub fn protect(
        &mut self,
        place: Place,
        page: Page,
        flags: PteFlags,
        named: u8,
    ) -> Result<u32, Refusal>
        ensures answer { result ≡ edit_answer self.old (wish.Protect place page flags) named }
        ensures after { self.new ≡ after_edit self.old (wish.Protect place page flags) named }
        ensures call { LeadsTo (call.Protect place page flags named) self.old self.new }
        ensures same { name_of self.new ≡ name_of self.old }
    {
        let wish = Wish::Protect { place, page, flags };
        self.edit(&wish, named)
    }
}
