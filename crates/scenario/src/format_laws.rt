//! Laws of the formats: each call makes no step, and its clauses hold of the definitions alone.
ghost use Rattle.std.specs.Prelude.{[], codes, false, true};
ghost use Rattle.steps.specs.declared.fault.StepFault.TheVariants.{NotStep};
ghost use Rattle.scenario.specs.Command.{done, IsTold, misused, no_memory, no_thread, output_failed, refused, too_large, unreadable, warned, wrong_entry, wrong_line, no_verdict};
ghost use Rattle.watch_report.specs.declared.line_fault.LineReason.TheVariants.{NoTrace, Unaligned};
ghost use Rattle.watch_report.specs.declared.known_fault.KnownReason.TheVariants.{NoOwner};
ghost use Rattle.watch_report.specs.LineFaults.{fault_at};
ghost use Rattle.files.specs.Faults.{bad_layout, not_toml, too_many, wrong_key, wrong_script, wrong_step};

/// The status of each ending, and its line on standard error, written out.
pub fn worked_endings()
    ensures done { IsTold done 0 [] }
    ensures misused { IsTold misused 2 (codes "svsim: usage: svsim COMMAND FILE\n") }
    ensures unreadable { IsTold unreadable 2 (codes "svsim: cannot read f\n") }
    ensures too_large { IsTold too_large 2 (codes "svsim: file too large\n") }
    ensures not_toml { IsTold (refused not_toml) 2 (codes "svsim: not TOML\n") }
    ensures wrong_key { IsTold (refused (wrong_key (codes "k"))) 3 (codes "svsim: key k: wrong\n") }
    ensures bad_layout { IsTold (refused bad_layout) 3 (codes "svsim: layout refused\n") }
    ensures too_many { IsTold (refused too_many) 3 (codes "svsim: too many steps\n") }
    ensures wrong_step { IsTold (refused (wrong_step 12 NotStep)) 3
        (codes "svsim: step 12: not a step\n") }
    ensures wrong_script { IsTold (refused (wrong_script 3 12 NotStep)) 3
        (codes "svsim: script 3 step 12: not a step\n") }
    ensures output_failed { IsTold output_failed 4 (codes "svsim: output failed\n") }
    ensures no_memory { IsTold no_memory 5 (codes "svsim: no memory\n") }
    ensures warned { IsTold warned 1 [] }
    ensures wrong_line { IsTold (wrong_line 12 (fault_at 5 (Unaligned 0x80000004)) false) 3
        (codes "f:12:5: PA 80000004 is no multiple of 8\n") }
    ensures wrong_line_after_a_verdict { IsTold (wrong_line 1 (fault_at 1 NoTrace) true) 1
        (codes "f:1:1: no trace, which begins with watch 1 HARTS SCHEME (a scenario is for svsim run)\n") }
    ensures no_verdict { IsTold (no_verdict 12) 1 (codes "f:12: no such verdict\n") }
    ensures wrong_entry { IsTold (wrong_entry (record { line = 12; reason = NoOwner })) 3
        (codes "f:12: no owner: an entry begins with user or kernel\n") }
    ensures no_thread { IsTold no_thread 5 (codes "svsim: no thread\n") }
{}
