//! The two halves of a list.

ghost use Rattle.std.specs.Prelude.{◌≡◌, ℕ, List, [], ◌∷◌, ◌++◌};
ghost use base.Stored.{coded_list};
ghost use Rattle.harts.specs.Halves.{inner_owns, outer_owns};

use std::marker::{Model, PhantomData};

/// The half of a list that lies under a lock. It has no bytes.
pub struct Inner<E> {
    marker: PhantomData<E>,
    pub ghost name: { ℕ },
    pub ghost list: { List E } by { coded_list E.code },
}

impl<E> Model for Inner<E> {
    ghost also_owns = { λ h. inner_owns E.row.coded h.name h.list };
}

/// The half of a list that a caller holds. It has no bytes.
pub struct Outer<E> {
    marker: PhantomData<E>,
    pub ghost name: { ℕ },
    pub ghost list: { List E } by { coded_list E.code },
}

impl<E> Model for Outer<E> {
    ghost also_owns = { λ h. outer_owns E.row.coded h.name h.list };
}

impl<E> Inner<E> {
    /// The two halves of a new, empty list.
    pub fn pair() -> (Inner<E>, Outer<E>)
        ensures { (result.0.name ≡ result.1.name) × (result.0.list ≡ []) × (result.1.list ≡ []) }
    {
        (
            Inner {
                marker: PhantomData,
            },
            Outer {
                marker: PhantomData,
            },
        )
    }

    /// Appends an element to both halves, which had the same list.
    pub fn push(&mut self, outer: &mut Outer<E>, element: &E)
        requires { self.old.name ≡ outer.old.name }
        ensures { (self.old.list ≡ outer.old.list)
            × (self.new.list ≡ self.old.list ++ element.now ∷ [])
            × (outer.new.list ≡ outer.old.list ++ element.now ∷ [])
            × (self.new.name ≡ self.old.name) × (outer.new.name ≡ outer.old.name) }
    {}

    /// Changes nothing; its contract says that both halves have the same list.
    pub fn agree(&mut self, outer: &mut Outer<E>)
        requires { self.old.name ≡ outer.old.name }
        ensures { (self.old.list ≡ outer.old.list) × (self.new ≡ self.old)
            × (outer.new ≡ outer.old) }
    {}
}

impl<E> Drop for Inner<E> {
    fn drop(self) {
        let Self { marker: _ } = self;
    }
}

impl<E> Drop for Outer<E> {
    fn drop(self) {
        let Self { marker: _ } = self;
    }
}

unsafe impl<E> Send for Inner<E> {}

unsafe impl<E> Send for Outer<E> {}
