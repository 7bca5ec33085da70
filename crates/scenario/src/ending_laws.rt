//! Laws of how commands end: each call makes no step, and its clauses hold of the definitions alone.
ghost use Rattle.std.specs.Prelude.{◌≡◌, List, ℕ, [], Option, Some, None, codes};
ghost use Rattle.files.specs.declared.fault.Fault.TheVariants.{Layout, NoMemory, Output};
ghost use Rattle.files.specs.Faults.{Failure, bad_layout, too_many};
ghost use Rattle.scenario.specs.Command.{done, Ends, error_line, file_fault, refused, Reports};
ghost use Rattle.scenario.specs.Commands.{live, meaning_of};
ghost use Rattle.scenario.specs.declared.commands.Which.{Which};
ghost use Rattle.scenario.specs.Output.{AppendsFront, EndsBy, WritesAll};
ghost use Rattle.scenario.specs.WorkedFiles.{IsOkLine};

/// Status 0 says that a file has no fault, that all its lines were written, and nothing on standard
/// error; status 3, that the file has a first fault, and that a beginning of its line was written
/// on standard error.
pub fn what_a_status_says()
    ensures done { (which : Which) (file bytes : List ℕ)
        (out_old out_new err_old err_new : Option (List ℕ))
        → Ends (meaning_of file which) file bytes 0 out_old out_new err_old err_new
        → (file_fault (meaning_of file which) bytes ≡ None)
        × WritesAll ((meaning_of file which).Lines bytes) out_old out_new
        × AppendsFront err_old err_new [] }
    ensures live_done { (file bytes : List ℕ) (out_old out_new err_old err_new : Option (List ℕ))
        → Ends live file bytes 0 out_old out_new err_old err_new
        → (file_fault live bytes ≡ None) × WritesAll (live.Lines bytes) out_old out_new
        × AppendsFront err_old err_new [] }
    ensures refused { (which : Which) (file bytes : List ℕ)
        (out_old out_new err_old err_new : Option (List ℕ))
        → Ends (meaning_of file which) file bytes 3 out_old out_new err_old err_new
        → (failure : Failure) × (file_fault (meaning_of file which) bytes ≡ Some failure)
        × AppendsFront err_old err_new (error_line file (refused failure)) }
    ensures live_refused { (file bytes : List ℕ)
        (out_old out_new err_old err_new : Option (List ℕ))
        → Ends live file bytes 3 out_old out_new err_old err_new
        → (failure : Failure) × (file_fault live bytes ≡ Some failure)
        × AppendsFront err_old err_new (error_line file (refused failure)) }
{}

/// What a call may leave that ended by a fault: of a text with another first fault, or with none,
/// it does not end so, and where the output failed nothing but a beginning of the lines was
/// written, else nothing.
pub fn worked_faults()
    ensures layout { EndsBy Layout (Some bad_layout) IsOkLine (Some []) (Some []) }
    ensures another_fault { ¬ EndsBy Layout (Some too_many) IsOkLine (Some []) (Some []) }
    ensures no_fault { ¬ EndsBy Layout None IsOkLine (Some []) (Some []) }
    ensures printed_before { ¬ EndsBy Layout (Some bad_layout) IsOkLine (Some [])
        (Some (codes "1 ok\n")) }
    ensures cut_off { EndsBy Output None IsOkLine (Some []) (Some (codes "1 o")) }
    ensures other_line { ¬ EndsBy Output None IsOkLine (Some []) (Some (codes "1 leaf\n")) }
    ensures faulty { ¬ EndsBy Output (Some bad_layout) IsOkLine (Some []) (Some (codes "1 o")) }
    ensures no_memory { EndsBy NoMemory None IsOkLine (Some []) (Some []) }
    ensures printed_without_memory { ¬ EndsBy NoMemory None IsOkLine (Some [])
        (Some (codes "1 ok\n")) }
{}

/// What is reported of an ending: its status, with its line or a beginning of it, or that there was
/// no memory for the line; and nothing of a command that is done.
pub fn worked_reports()
    ensures layout { Reports (codes "f") (refused bad_layout) 3 (Some [])
        (Some (codes "svsim: layout refused\n")) }
    ensures cut_off { Reports (codes "f") (refused bad_layout) 3 (Some [])
        (Some (codes "svsim: lay")) }
    ensures no_memory { Reports (codes "f") (refused bad_layout) 5 (Some [])
        (Some (codes "svsim: no memory\n")) }
    ensures other_fault { ¬ Reports (codes "f") (refused bad_layout) 3 (Some [])
        (Some (codes "svsim: too many steps\n")) }
    ensures other_status { ¬ Reports (codes "f") (refused bad_layout) 2 (Some [])
        (Some (codes "svsim: layout refused\n")) }
    ensures line_of_another_status { ¬ Reports (codes "f") (refused bad_layout) 5 (Some [])
        (Some (codes "svsim: layout refused\n")) }
    ensures done { Reports (codes "f") done 0 (Some []) (Some []) }
    ensures done_with_a_line { ¬ Reports (codes "f") done 0 (Some [])
        (Some (codes "svsim: no memory\n")) }
    ensures done_by_another_status { ¬ Reports (codes "f") done 5 (Some []) (Some []) }
{}
