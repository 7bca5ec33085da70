//! Laws of the warnings, and of rechecks: each function does nothing, and its contract is the law.

ghost use Rattle.std.specs.Prelude.{ℕ, Bool, ◌≡◌, ◌+◌, ◌<◌, ◌≤◌, ◌↔◌, List, [], ◌∷◌, ◌++◌, length, false};
ghost use Rattle.std.specs.List.{AllPairs, Contains};
ghost use Rattle.pte.specs.declared.flags.PteFlags.{PteFlags};
ghost use Rattle.pte.specs.declared.scheme.Scheme.{Scheme};
ghost use Rattle.pte.specs.Entry.{is_user, may_execute, may_read, may_write};
ghost use Rattle.watch.specs.declared.trace.Record.{Record};
ghost use Rattle.watch.specs.declared.trace.Verdict.{Verdict};
ghost use Rattle.watch.specs.Trace.{Trace};
ghost use Rattle.watch.specs.Holding.{Translation};
ghost use Rattle.watch.specs.Staleness.{Stale};
ghost use Rattle.watch_engine.specs.declared.state.State.{State};
ghost use Rattle.watch_engine.specs.declared.warning.Warning.{Warning};
ghost use Rattle.watch_engine.specs.State.{rechecked};
ghost use Rattle.watch_engine.specs.Warnings.{AreApart, AreWarnings, IsDue, IsStaleFrom, Shows, shown_of};

/// A warning that has a translation shows that one; of two translations each is shown by a warning
/// that has the other, or neither; and what shows a second that shows a third shows the third.
pub fn shows_is_an_equivalence()
    ensures itself { (a : Translation) → Shows a a }
    ensures back { (a b : Translation) → Shows a b → Shows b a }
    ensures through { (a b c : Translation) → Shows a b → Shows b c → Shows a c }
{}

/// Translations that one warning shows agree in page, PPN, rights and being global and, if they are
/// not global, in root and ASID; the other flags, so A and D, are free.
pub fn shown_by_one_agree()
    ensures page { (a b c : Translation) → Shows a b → Shows a c
        → (b.entry.page ≡ c.entry.page) × (b.entry.ppn ≡ c.entry.ppn) }
    ensures rights { (a b c : Translation) → Shows a b → Shows a c
        → (is_user b.entry.flags.0 ≡ is_user c.entry.flags.0)
        × (may_read b.entry.flags.0 ≡ may_read c.entry.flags.0)
        × (may_write b.entry.flags.0 ≡ may_write c.entry.flags.0)
        × (may_execute b.entry.flags.0 ≡ may_execute c.entry.flags.0) }
    ensures global { (a b c : Translation) → Shows a b → Shows a c
        → b.entry.global ≡ c.entry.global }
    ensures space { (a b c : Translation) → Shows a b → Shows a c → b.entry.global ≡ false
        → (b.root ≡ c.root) × (b.entry.asid ≡ c.entry.asid) }
    ensures flags { (a : Translation) (flags : PteFlags)
        → is_user a.entry.flags.0 ≡ is_user flags.0
        → may_read a.entry.flags.0 ≡ may_read flags.0
        → may_write a.entry.flags.0 ≡ may_write flags.0
        → may_execute a.entry.flags.0 ≡ may_execute flags.0
        → Shows a (record a { entry = record a.entry { flags = flags } }) }
{}

/// The moment from which a translation is stale: there is one exactly if it is stale, and only one.
/// It is a number of records from 1 on: after as many, and after each more, the translation was
/// stale, and after one fewer it was not; and a number of which this holds is the moment.
pub fn stale_from_one_moment()
    ensures one { (scheme : Scheme) (trace : Trace) (hart m n : ℕ) (x : Translation)
        → IsStaleFrom scheme m trace hart x → IsStaleFrom scheme n trace hart x → m ≡ n }
    ensures some { (scheme : Scheme) (trace : Trace) (hart : ℕ) (x : Translation)
        → Stale scheme trace hart x ↔ ((moment : ℕ) × IsStaleFrom scheme moment trace hart x) }
    ensures range { (scheme : Scheme) (trace : Trace) (hart moment : ℕ) (x : Translation)
        → IsStaleFrom scheme moment trace hart x → (0 < moment) × (moment ≤ length trace) }
    ensures since { (scheme : Scheme) (later earlier : Trace) (hart moment : ℕ) (x : Translation)
        → IsStaleFrom scheme moment (later ++ earlier) hart x → moment ≤ length earlier
        → Stale scheme earlier hart x }
    ensures before { (scheme : Scheme) (later earlier : Trace) (hart moment : ℕ) (x : Translation)
        → IsStaleFrom scheme moment (later ++ earlier) hart x → length earlier + 1 ≡ moment
        → ¬ Stale scheme earlier hart x }
    ensures is { (scheme : Scheme) (newest : Record) (later earlier : Trace) (hart : ℕ)
        (x : Translation)
        → ((after between : Trace) → later ≡ after ++ between
        → Stale scheme (between ++ newest ∷ earlier) hart x)
        → ¬ Stale scheme earlier hart x
        → IsStaleFrom scheme (length (newest ∷ earlier)) (later ++ newest ∷ earlier) hart x }
{}

/// Translations that one warning shows are stale from the same moment, for each hart that may hold
/// them.
pub fn shown_are_stale_from_one_moment()
    ensures { (scheme : Scheme) (trace : Trace) (moment hart other : ℕ) (a b : Translation)
        → Shows a b → IsStaleFrom scheme moment trace hart a → Stale scheme trace other b
        → IsStaleFrom scheme moment trace other b }
{}

/// Two lists of warnings at a record say the same: for each warning of the one, the other has one of
/// the same verdict and hart that shows the same, from the same moment. So they are as long as one
/// another; and any list that is as long, of what is due, each with its moment and none shown twice,
/// is a list of the warnings too. In a list, one warning alone shows a translation of a verdict and a
/// hart.
pub fn warnings_say_the_same()
    ensures each { (scheme : Scheme) (newest : Record) (trace : Trace) (first second : List Warning)
        → AreWarnings scheme newest trace first → AreWarnings scheme newest trace second
        → (v : Warning) → Contains first v
        → (w : Warning) × Contains second w × (w.verdict ≡ v.verdict) × (w.hart ≡ v.hart)
        × Shows (shown_of w) (shown_of v) × (w.stale_since ≡ v.stale_since) }
    ensures length { (scheme : Scheme) (newest : Record) (trace : Trace)
        (first second : List Warning) → AreWarnings scheme newest trace first
        → AreWarnings scheme newest trace second → length first ≡ length second }
    ensures as_many { (scheme : Scheme) (newest : Record) (trace : Trace)
        (first second : List Warning) → AreWarnings scheme newest trace first
        → ((w : Warning) → Contains second w
        → IsDue scheme w.verdict newest trace w.hart (shown_of w)
        × IsStaleFrom scheme w.stale_since trace w.hart (shown_of w))
        → AllPairs AreApart second → length first ≡ length second
        → AreWarnings scheme newest trace second }
    ensures one { (scheme : Scheme) (newest : Record) (trace : Trace) (warnings : List Warning)
        (v w : Warning) (x : Translation) → AreWarnings scheme newest trace warnings
        → Contains warnings v → Contains warnings w → v.verdict ≡ w.verdict → v.hart ≡ w.hart
        → Shows (shown_of v) x → Shows (shown_of w) x → v ≡ w }
{}

/// There are no warnings exactly if no verdict is due, and then each list of them is empty.
pub fn no_warnings_if_none_is_due()
    ensures none { (scheme : Scheme) (newest : Record) (trace : Trace)
        → AreWarnings scheme newest trace []
        ↔ ((verdict : Verdict) (hart : ℕ) (x : Translation)
        → ¬ IsDue scheme verdict newest trace hart x) }
    ensures only { (scheme : Scheme) (newest : Record) (trace : Trace) (warnings : List Warning)
        → AreWarnings scheme newest trace []
        → AreWarnings scheme newest trace warnings → warnings ≡ [] }
{}

/// A recheck against the tables is idempotent: a second one that finds the same changes nothing,
/// however much later. What is stale stays so since the same moment, with the verdicts that it has
/// had, and what has gone stays gone.
pub fn recheck_is_idempotent()
    ensures { (mapped : Bool) (now later : ℕ) (state : State)
        → rechecked mapped later (rechecked mapped now state) ≡ rechecked mapped now state }
{}
