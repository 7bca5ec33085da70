//! Laws of the words of the command line: each call makes no step, and its clauses hold of the
//! definitions alone.
ghost use Rattle.std.specs.Prelude.{◌≡◌, ℕ, List, [], ◌∷◌, true, false, Some, None, codes};
ghost use Rattle.std.specs.List.{list_all};
ghost use Rattle.std.specs.Str.{is_utf8};
ghost use Rattle.scenario.specs.declared.task.Task.TheVariants.{Explain, Live, Picture, Plain, Watch};
ghost use Rattle.scenario.specs.declared.commands.Which.TheVariants.{Draw, Run, Show, Stale, Walk};
ghost use Rattle.watch_report.specs.declared.detail.Detail.TheVariants.{Causes, Counts, Verdicts};
ghost use Rattle.watch.specs.declared.trace.Verdict.TheVariants.{Free, Used};
ghost use Rattle.watch_report.specs.Filters.{no_filter};
ghost use Rattle.watch_report.specs.Reports.{options_of};
ghost use Rattle.scenario.specs.CommandLine.{asked, asked_by, asked_in_words, is_option};
ghost use Rattle.scenario.specs.Tasks.{no_options, with_line};
ghost use Rattle.scenario.specs.WorkedWords.{asking, at_most, in_json, knowing, of_hart, of_kind, of_page, text_taken};

/// What `clap` takes is what is read off the words, one after the other (`asked_in_words`). Of two or
/// three words that are no options, whatever their bytes are, it takes just these.
pub fn words_are_read()
    ensures read { (name : List ℕ) (words : List (List ℕ)) → list_all is_utf8 words ≡ true
        → asked (name ∷ words) ≡ asked_in_words words }
    ensures plain { (name word file : List ℕ) → is_option word ≡ false → is_option file ≡ false
        → asked (name ∷ word ∷ file ∷ []) ≡ asked_by word no_options file }
    ensures plain_line { (name word file line : List ℕ) → is_option word ≡ false
        → is_option file ≡ false → is_option line ≡ false
        → asked (name ∷ word ∷ file ∷ line ∷ []) ≡ asked_by word (with_line line) file }
{}

/// Command lines written out, and what `clap` takes of them.
pub fn worked_words()
    ensures no_name { asked [] ≡ None }
    ensures no_words { asked (codes "svsim" ∷ []) ≡ None }
    ensures one { asked (codes "svsim" ∷ codes "walk" ∷ []) ≡ None }
    ensures two { asked (codes "svsim" ∷ codes "walk" ∷ codes "f" ∷ [])
        ≡ Some (asking (Plain Walk) (codes "f")) }
    ensures watch { asked (codes "svsim" ∷ codes "watch" ∷ codes "-" ∷ [])
        ≡ Some (asking (Watch (options_of Causes no_filter)) (codes "-")) }
    ensures watch_alone { asked (codes "svsim" ∷ codes "watch" ∷ []) ≡ None }
    ensures three { asked (codes "svsim" ∷ codes "walk" ∷ codes "f" ∷ codes "g" ∷ []) ≡ None }
    ensures four { asked (codes "svsim" ∷ codes "run" ∷ codes "--" ∷ codes "f" ∷ codes "g" ∷ [])
        ≡ None }
    ensures unknown { asked (codes "svsim" ∷ codes "Run" ∷ codes "f" ∷ []) ≡ None }
    ensures file_first { asked (codes "svsim" ∷ codes "f" ∷ codes "run" ∷ []) ≡ None }
    ensures no_file_name { asked (codes "svsim" ∷ codes "run" ∷ [] ∷ [])
        ≡ Some (asking (Plain Run) []) }
    ensures dash { asked (codes "svsim" ∷ codes "live" ∷ codes "-" ∷ [])
        ≡ Some (asking Live (codes "-")) }
    ensures end { asked (codes "svsim" ∷ codes "stale" ∷ codes "--" ∷ codes "-x" ∷ [])
        ≡ Some (asking (Plain Stale) (codes "-x")) }
    ensures end_first { asked (codes "svsim" ∷ codes "--" ∷ codes "show" ∷ codes "--" ∷ [])
        ≡ Some (asking (Plain Show) (codes "--")) }
    ensures end_last { asked (codes "svsim" ∷ codes "draw" ∷ codes "f" ∷ codes "--" ∷ [])
        ≡ Some (asking (Plain Draw) (codes "f")) }
    ensures end_alone { asked (codes "svsim" ∷ codes "check" ∷ codes "--" ∷ []) ≡ None }
{}

/// Options, and what `clap` takes of them.
pub fn worked_options()
    ensures option_first { asked (codes "svsim" ∷ codes "-x" ∷ codes "run" ∷ codes "f" ∷ [])
        ≡ None }
    ensures option_last { asked (codes "svsim" ∷ codes "run" ∷ codes "f" ∷ codes "--x=f" ∷ [])
        ≡ None }
    ensures option_for_file { asked (codes "svsim" ∷ codes "run" ∷ codes "-x" ∷ []) ≡ None }
    ensures help { asked (codes "svsim" ∷ codes "--help" ∷ []) ≡ None }
    ensures short_help { asked (codes "svsim" ∷ codes "run" ∷ codes "f" ∷ codes "-h" ∷ [])
        ≡ None }
    ensures help_word { asked (codes "svsim" ∷ codes "help" ∷ codes "run" ∷ []) ≡ None }
    ensures version { asked (codes "svsim" ∷ codes "--version" ∷ []) ≡ None }
    ensures short_version { asked (codes "svsim" ∷ codes "-V" ∷ codes "run" ∷ codes "f" ∷ [])
        ≡ None }
    ensures all { asked (codes "svsim" ∷ codes "watch" ∷ codes "--all" ∷ codes "t" ∷ [])
        ≡ Some (asking (Watch (options_of Verdicts no_filter)) (codes "t")) }
    ensures quiet { asked (codes "svsim" ∷ codes "watch" ∷ codes "t" ∷ codes "--quiet" ∷ [])
        ≡ Some (asking (Watch (options_of Counts no_filter)) (codes "t")) }
    ensures all_first { asked (codes "svsim" ∷ codes "--all" ∷ codes "watch" ∷ codes "t" ∷ [])
        ≡ Some (asking (Watch (options_of Verdicts no_filter)) (codes "t")) }
    ensures all_twice { asked (codes "svsim" ∷ codes "watch" ∷ codes "--all" ∷ codes "--all"
        ∷ codes "t" ∷ []) ≡ None }
    ensures all_and_quiet { asked (codes "svsim" ∷ codes "watch" ∷ codes "--all" ∷ codes "--quiet"
        ∷ codes "t" ∷ []) ≡ None }
    ensures all_of_run { asked (codes "svsim" ∷ codes "run" ∷ codes "--all" ∷ codes "f" ∷ [])
        ≡ None }
    ensures all_as_file { asked (codes "svsim" ∷ codes "watch" ∷ codes "--" ∷ codes "--all" ∷ [])
        ≡ Some (asking (Watch (options_of Causes no_filter)) (codes "--all")) }
    ensures all_with_value { asked (codes "svsim" ∷ codes "watch" ∷ codes "--all=yes" ∷ codes "t" ∷ [])
        ≡ None }
    ensures part_of_all { asked (codes "svsim" ∷ codes "watch" ∷ codes "--al" ∷ codes "t" ∷ [])
        ≡ None }
{}

/// Options with a value.
pub fn worked_filters()
    ensures hart { asked (codes "svsim" ∷ codes "watch" ∷ codes "--hart" ∷ codes "1" ∷ codes "t"
        ∷ [])
        ≡ Some (asking (Watch (options_of Causes (of_hart 1 no_filter))) (codes "t")) }
    ensures hart_with_equals { asked (codes "svsim" ∷ codes "watch" ∷ codes "t" ∷ codes "--hart=1"
        ∷ [])
        ≡ Some (asking (Watch (options_of Causes (of_hart 1 no_filter))) (codes "t")) }
    ensures hart_first { asked (codes "svsim" ∷ codes "--hart" ∷ codes "1" ∷ codes "watch"
        ∷ codes "t" ∷ [])
        ≡ Some (asking (Watch (options_of Causes (of_hart 1 no_filter))) (codes "t")) }
    ensures hart_between { asked (codes "svsim" ∷ codes "watch" ∷ codes "--hart" ∷ codes "1"
        ∷ codes "--" ∷ codes "t" ∷ [])
        ≡ Some (asking (Watch (options_of Causes (of_hart 1 no_filter))) (codes "t")) }
    ensures hart_and_all { asked (codes "svsim" ∷ codes "watch" ∷ codes "--all" ∷ codes "t"
        ∷ codes "--hart=1" ∷ [])
        ≡ Some (asking (Watch (options_of Verdicts (of_hart 1 no_filter))) (codes "t")) }
    ensures hart_and_quiet { asked (codes "svsim" ∷ codes "watch" ∷ codes "--hart" ∷ codes "1"
        ∷ codes "--quiet" ∷ codes "t" ∷ [])
        ≡ Some (asking (Watch (options_of Counts (of_hart 1 no_filter))) (codes "t")) }
    ensures hart_as_file { asked (codes "svsim" ∷ codes "watch" ∷ codes "--" ∷ codes "--hart" ∷ [])
        ≡ Some (asking (Watch (options_of Causes no_filter)) (codes "--hart")) }
    ensures page { asked (codes "svsim" ∷ codes "watch" ∷ codes "--page" ∷ codes "a000"
        ∷ codes "t" ∷ [])
        ≡ Some (asking (Watch (options_of Causes (of_page 40960 no_filter))) (codes "t")) }
    ensures kind { asked (codes "svsim" ∷ codes "watch" ∷ codes "--kind" ∷ codes "kernel-free"
        ∷ codes "t" ∷ [])
        ≡ Some (asking (Watch (options_of Causes (of_kind true Free no_filter))) (codes "t")) }
    ensures all_three { asked (codes "svsim" ∷ codes "watch" ∷ codes "--kind=free" ∷ codes "t"
        ∷ codes "--page=0" ∷ codes "--hart" ∷ codes "63" ∷ [])
        ≡ Some (asking (Watch (options_of Causes (of_hart 63 (of_page 0 (of_kind false Free no_filter)))))
        (codes "t")) }
{}

/// Options that lack a value, or have a wrong one.
pub fn worked_refusals()
    ensures hart_last { asked (codes "svsim" ∷ codes "watch" ∷ codes "t" ∷ codes "--hart" ∷ [])
        ≡ None }
    ensures hart_before_all { asked (codes "svsim" ∷ codes "watch" ∷ codes "--hart"
        ∷ codes "--all" ∷ codes "t" ∷ []) ≡ None }
    ensures hart_before_end { asked (codes "svsim" ∷ codes "watch" ∷ codes "--hart" ∷ codes "--"
        ∷ codes "t" ∷ []) ≡ None }
    ensures hart_before_dash { asked (codes "svsim" ∷ codes "watch" ∷ codes "--hart" ∷ codes "-"
        ∷ codes "t" ∷ []) ≡ None }
    ensures hart_empty { asked (codes "svsim" ∷ codes "watch" ∷ codes "--hart=" ∷ codes "t" ∷ [])
        ≡ None }
    ensures hart_with_two_equals { asked (codes "svsim" ∷ codes "watch" ∷ codes "--hart=1=2"
        ∷ codes "t" ∷ []) ≡ None }
    ensures hart_twice { asked (codes "svsim" ∷ codes "watch" ∷ codes "--hart" ∷ codes "1"
        ∷ codes "--hart" ∷ codes "2" ∷ codes "t" ∷ []) ≡ None }
    ensures hart_twice_the_same { asked (codes "svsim" ∷ codes "watch" ∷ codes "--hart=1"
        ∷ codes "t" ∷ codes "--hart=1" ∷ []) ≡ None }
    ensures part_of_hart { asked (codes "svsim" ∷ codes "watch" ∷ codes "--ha=1" ∷ codes "t" ∷ [])
        ≡ None }
    ensures short_hart { asked (codes "svsim" ∷ codes "watch" ∷ codes "-hart" ∷ codes "1"
        ∷ codes "t" ∷ []) ≡ None }
    ensures no_hart { asked (codes "svsim" ∷ codes "watch" ∷ codes "--hart" ∷ codes "one"
        ∷ codes "t" ∷ []) ≡ None }
    ensures no_such_hart { asked (codes "svsim" ∷ codes "watch" ∷ codes "--hart" ∷ codes "64"
        ∷ codes "t" ∷ []) ≡ None }
    ensures no_page { asked (codes "svsim" ∷ codes "watch" ∷ codes "--page" ∷ codes "0x1000"
        ∷ codes "t" ∷ []) ≡ None }
    ensures no_kind { asked (codes "svsim" ∷ codes "watch" ∷ codes "--kind" ∷ codes "stale"
        ∷ codes "t" ∷ []) ≡ None }
    ensures hart_of_run { asked (codes "svsim" ∷ codes "run" ∷ codes "--hart" ∷ codes "1"
        ∷ codes "f" ∷ []) ≡ None }
    ensures kind_of_live { asked (codes "svsim" ∷ codes "live" ∷ codes "f" ∷ codes "--kind=free"
        ∷ []) ≡ None }
    ensures hart_takes_the_file { asked (codes "svsim" ∷ codes "watch" ∷ codes "--hart"
        ∷ codes "t" ∷ []) ≡ None }
{}

/// The form of a report, how many are told at most, and the list of what is known.
pub fn worked_forms()
    ensures json { asked (codes "svsim" ∷ codes "watch" ∷ codes "--json" ∷ codes "t" ∷ [])
        ≡ Some (asking (Watch (in_json (options_of Causes no_filter))) (codes "t")) }
    ensures json_first { asked (codes "svsim" ∷ codes "--json" ∷ codes "watch" ∷ codes "t" ∷ [])
        ≡ Some (asking (Watch (in_json (options_of Causes no_filter))) (codes "t")) }
    ensures json_and_all { asked (codes "svsim" ∷ codes "watch" ∷ codes "--all" ∷ codes "t"
        ∷ codes "--json" ∷ [])
        ≡ Some (asking (Watch (in_json (options_of Verdicts no_filter))) (codes "t")) }
    ensures json_and_quiet { asked (codes "svsim" ∷ codes "watch" ∷ codes "--json" ∷ codes "--quiet"
        ∷ codes "t" ∷ [])
        ≡ Some (asking (Watch (in_json (options_of Counts no_filter))) (codes "t")) }
    ensures json_as_file { asked (codes "svsim" ∷ codes "watch" ∷ codes "--" ∷ codes "--json" ∷ [])
        ≡ Some (asking (Watch (options_of Causes no_filter)) (codes "--json")) }
    ensures max { asked (codes "svsim" ∷ codes "watch" ∷ codes "--max" ∷ codes "3" ∷ codes "t" ∷ [])
        ≡ Some (asking (Watch (at_most 3 (options_of Causes no_filter))) (codes "t")) }
    ensures max_with_equals { asked (codes "svsim" ∷ codes "watch" ∷ codes "t" ∷ codes "--max=3"
        ∷ [])
        ≡ Some (asking (Watch (at_most 3 (options_of Causes no_filter))) (codes "t")) }
    ensures max_first { asked (codes "svsim" ∷ codes "--max" ∷ codes "3" ∷ codes "watch" ∷ codes "t"
        ∷ [])
        ≡ Some (asking (Watch (at_most 3 (options_of Causes no_filter))) (codes "t")) }
    ensures max_zero { asked (codes "svsim" ∷ codes "watch" ∷ codes "--max" ∷ codes "0" ∷ codes "t"
        ∷ [])
        ≡ Some (asking (Watch (at_most 0 (options_of Causes no_filter))) (codes "t")) }
    ensures max_zeros { asked (codes "svsim" ∷ codes "watch" ∷ codes "--max" ∷ codes "0012"
        ∷ codes "t" ∷ [])
        ≡ Some (asking (Watch (at_most 12 (options_of Causes no_filter))) (codes "t")) }
    ensures max_greatest { asked (codes "svsim" ∷ codes "watch" ∷ codes "--max"
        ∷ codes "18446744073709551615" ∷ codes "t" ∷ [])
        ≡ Some (asking (Watch (at_most 18446744073709551615 (options_of Causes no_filter)))
        (codes "t")) }
    ensures max_and_all { asked (codes "svsim" ∷ codes "watch" ∷ codes "--all" ∷ codes "--max"
        ∷ codes "1" ∷ codes "t" ∷ [])
        ≡ Some (asking (Watch (at_most 1 (options_of Verdicts no_filter))) (codes "t")) }
    ensures max_and_quiet { asked (codes "svsim" ∷ codes "watch" ∷ codes "--quiet" ∷ codes "t"
        ∷ codes "--max=1" ∷ [])
        ≡ Some (asking (Watch (at_most 1 (options_of Counts no_filter))) (codes "t")) }
    ensures known { asked (codes "svsim" ∷ codes "watch" ∷ codes "--known" ∷ codes "l" ∷ codes "t"
        ∷ [])
        ≡ Some (knowing (codes "l") (asking (Watch (options_of Causes no_filter)) (codes "t"))) }
    ensures known_with_equals { asked (codes "svsim" ∷ codes "watch" ∷ codes "t" ∷ codes "--known=l"
        ∷ [])
        ≡ Some (knowing (codes "l") (asking (Watch (options_of Causes no_filter)) (codes "t"))) }
    ensures known_first { asked (codes "svsim" ∷ codes "--known" ∷ codes "l" ∷ codes "watch"
        ∷ codes "t" ∷ [])
        ≡ Some (knowing (codes "l") (asking (Watch (options_of Causes no_filter)) (codes "t"))) }
    ensures known_and_all { asked (codes "svsim" ∷ codes "watch" ∷ codes "--known" ∷ codes "l"
        ∷ codes "--all" ∷ codes "t" ∷ [])
        ≡ Some (knowing (codes "l") (asking (Watch (options_of Verdicts no_filter)) (codes "t"))) }
    ensures known_and_quiet { asked (codes "svsim" ∷ codes "watch" ∷ codes "--known=l"
        ∷ codes "--quiet" ∷ codes "t" ∷ [])
        ≡ Some (knowing (codes "l") (asking (Watch (options_of Counts no_filter)) (codes "t"))) }
    ensures known_empty { asked (codes "svsim" ∷ codes "watch" ∷ codes "--known=" ∷ codes "t" ∷ [])
        ≡ Some (knowing [] (asking (Watch (options_of Causes no_filter)) (codes "t"))) }
    ensures known_dash { asked (codes "svsim" ∷ codes "watch" ∷ codes "--known" ∷ codes "-"
        ∷ codes "t" ∷ [])
        ≡ Some (knowing (codes "-") (asking (Watch (options_of Causes no_filter)) (codes "t"))) }
    ensures known_with_two_equals { asked (codes "svsim" ∷ codes "watch" ∷ codes "--known=a=b"
        ∷ codes "t" ∷ [])
        ≡ Some (knowing (codes "a=b") (asking (Watch (options_of Causes no_filter)) (codes "t"))) }
    ensures all_together { asked (codes "svsim" ∷ codes "watch" ∷ codes "--known" ∷ codes "l"
        ∷ codes "--json" ∷ codes "--max" ∷ codes "2" ∷ codes "--all" ∷ codes "--hart" ∷ codes "1"
        ∷ codes "t" ∷ [])
        ≡ Some (knowing (codes "l") (asking (Watch (in_json (at_most 2 (options_of Verdicts
        (of_hart 1 no_filter))))) (codes "t"))) }
{}

/// The same, where they are refused.
pub fn worked_wrong_forms()
    ensures json_twice { asked (codes "svsim" ∷ codes "watch" ∷ codes "--json" ∷ codes "--json"
        ∷ codes "t" ∷ []) ≡ None }
    ensures json_with_value { asked (codes "svsim" ∷ codes "watch" ∷ codes "--json=true" ∷ codes "t"
        ∷ []) ≡ None }
    ensures part_of_json { asked (codes "svsim" ∷ codes "watch" ∷ codes "--js" ∷ codes "t" ∷ [])
        ≡ None }
    ensures json_of_explain { asked (codes "svsim" ∷ codes "explain" ∷ codes "--json" ∷ codes "t"
        ∷ codes "7" ∷ []) ≡ None }
    ensures json_of_run { asked (codes "svsim" ∷ codes "run" ∷ codes "--json" ∷ codes "f" ∷ [])
        ≡ None }
    ensures max_twice { asked (codes "svsim" ∷ codes "watch" ∷ codes "--max" ∷ codes "1"
        ∷ codes "--max" ∷ codes "2" ∷ codes "t" ∷ []) ≡ None }
    ensures max_twice_the_same { asked (codes "svsim" ∷ codes "watch" ∷ codes "--max=1" ∷ codes "t"
        ∷ codes "--max=1" ∷ []) ≡ None }
    ensures max_last { asked (codes "svsim" ∷ codes "watch" ∷ codes "t" ∷ codes "--max" ∷ [])
        ≡ None }
    ensures max_before_json { asked (codes "svsim" ∷ codes "watch" ∷ codes "--max" ∷ codes "--json"
        ∷ codes "t" ∷ []) ≡ None }
    ensures max_takes_the_file { asked (codes "svsim" ∷ codes "watch" ∷ codes "--max" ∷ codes "1"
        ∷ []) ≡ None }
    ensures max_empty { asked (codes "svsim" ∷ codes "watch" ∷ codes "--max=" ∷ codes "t" ∷ [])
        ≡ None }
    ensures max_empty_word { asked (codes "svsim" ∷ codes "watch" ∷ codes "--max" ∷ [] ∷ codes "t"
        ∷ []) ≡ None }
    ensures no_max { asked (codes "svsim" ∷ codes "watch" ∷ codes "--max" ∷ codes "ten" ∷ codes "t"
        ∷ []) ≡ None }
    ensures max_in_hexadecimal { asked (codes "svsim" ∷ codes "watch" ∷ codes "--max" ∷ codes "0x1"
        ∷ codes "t" ∷ []) ≡ None }
    ensures max_too_great { asked (codes "svsim" ∷ codes "watch" ∷ codes "--max"
        ∷ codes "18446744073709551616" ∷ codes "t" ∷ []) ≡ None }
    ensures max_plus { asked (codes "svsim" ∷ codes "watch" ∷ codes "--max" ∷ codes "+1" ∷ codes "t"
        ∷ []) ≡ None }
    ensures max_minus { asked (codes "svsim" ∷ codes "watch" ∷ codes "--max=-1" ∷ codes "t" ∷ [])
        ≡ None }
    ensures max_of_explain { asked (codes "svsim" ∷ codes "explain" ∷ codes "--max" ∷ codes "1"
        ∷ codes "t" ∷ codes "7" ∷ []) ≡ None }
    ensures max_of_live { asked (codes "svsim" ∷ codes "live" ∷ codes "--max" ∷ codes "1"
        ∷ codes "f" ∷ []) ≡ None }
    ensures known_twice { asked (codes "svsim" ∷ codes "watch" ∷ codes "--known" ∷ codes "a"
        ∷ codes "--known" ∷ codes "b" ∷ codes "t" ∷ []) ≡ None }
    ensures known_twice_the_same { asked (codes "svsim" ∷ codes "watch" ∷ codes "--known=a"
        ∷ codes "--known=a" ∷ codes "t" ∷ []) ≡ None }
    ensures known_last { asked (codes "svsim" ∷ codes "watch" ∷ codes "t" ∷ codes "--known" ∷ [])
        ≡ None }
    ensures known_before_end { asked (codes "svsim" ∷ codes "watch" ∷ codes "--known" ∷ codes "--"
        ∷ codes "t" ∷ []) ≡ None }
    ensures known_takes_the_file { asked (codes "svsim" ∷ codes "watch" ∷ codes "--known"
        ∷ codes "t" ∷ []) ≡ None }
    ensures known_of_explain { asked (codes "svsim" ∷ codes "explain" ∷ codes "--known" ∷ codes "l"
        ∷ codes "t" ∷ codes "7" ∷ []) ≡ None }
    ensures known_of_check { asked (codes "svsim" ∷ codes "check" ∷ codes "--known" ∷ codes "l"
        ∷ codes "f" ∷ []) ≡ None }
{}

/// `explain`, and its LINE.
pub fn worked_explanations()
    ensures line { asked (codes "svsim" ∷ codes "explain" ∷ codes "t" ∷ codes "7" ∷ [])
        ≡ Some (asking (Explain no_filter 7) (codes "t")) }
    ensures dash { asked (codes "svsim" ∷ codes "explain" ∷ codes "-" ∷ codes "12" ∷ [])
        ≡ Some (asking (Explain no_filter 12) (codes "-")) }
    ensures hart { asked (codes "svsim" ∷ codes "explain" ∷ codes "--hart" ∷ codes "1" ∷ codes "t"
        ∷ codes "7" ∷ [])
        ≡ Some (asking (Explain (of_hart 1 no_filter) 7) (codes "t")) }
    ensures all_three { asked (codes "svsim" ∷ codes "explain" ∷ codes "t" ∷ codes "--kind=use"
        ∷ codes "--page=a000" ∷ codes "7" ∷ codes "--hart=2" ∷ [])
        ≡ Some (asking (Explain (of_hart 2 (of_page 40960 (of_kind false Used no_filter))) 7)
        (codes "t")) }
    ensures end { asked (codes "svsim" ∷ codes "explain" ∷ codes "--" ∷ codes "-t" ∷ codes "7" ∷ [])
        ≡ Some (asking (Explain no_filter 7) (codes "-t")) }
    ensures zeros { asked (codes "svsim" ∷ codes "explain" ∷ codes "t" ∷ codes "0007" ∷ [])
        ≡ Some (asking (Explain no_filter 7) (codes "t")) }
    ensures greatest { asked (codes "svsim" ∷ codes "explain" ∷ codes "t"
        ∷ codes "18446744073709551615" ∷ [])
        ≡ Some (asking (Explain no_filter 18446744073709551615) (codes "t")) }
    ensures too_great { asked (codes "svsim" ∷ codes "explain" ∷ codes "t"
        ∷ codes "18446744073709551616" ∷ []) ≡ None }
    ensures zero { asked (codes "svsim" ∷ codes "explain" ∷ codes "t" ∷ codes "0" ∷ []) ≡ None }
    ensures no_line { asked (codes "svsim" ∷ codes "explain" ∷ codes "t" ∷ []) ≡ None }
    ensures empty { asked (codes "svsim" ∷ codes "explain" ∷ codes "t" ∷ [] ∷ []) ≡ None }
    ensures no_number { asked (codes "svsim" ∷ codes "explain" ∷ codes "7" ∷ codes "t" ∷ []) ≡ None }
    ensures hexadecimal { asked (codes "svsim" ∷ codes "explain" ∷ codes "t" ∷ codes "0x7" ∷ [])
        ≡ None }
    ensures plus { asked (codes "svsim" ∷ codes "explain" ∷ codes "t" ∷ codes "+7" ∷ []) ≡ None }
    ensures minus { asked (codes "svsim" ∷ codes "explain" ∷ codes "t" ∷ codes "-7" ∷ []) ≡ None }
    ensures two_lines { asked (codes "svsim" ∷ codes "explain" ∷ codes "t" ∷ codes "7" ∷ codes "8"
        ∷ []) ≡ None }
    ensures all { asked (codes "svsim" ∷ codes "explain" ∷ codes "--all" ∷ codes "t" ∷ codes "7"
        ∷ []) ≡ None }
    ensures quiet { asked (codes "svsim" ∷ codes "explain" ∷ codes "t" ∷ codes "7"
        ∷ codes "--quiet" ∷ []) ≡ None }
    ensures line_of_watch { asked (codes "svsim" ∷ codes "watch" ∷ codes "t" ∷ codes "7" ∷ [])
        ≡ None }
    ensures line_of_run { asked (codes "svsim" ∷ codes "run" ∷ codes "f" ∷ codes "7" ∷ []) ≡ None }
    ensures line_as_option { asked (codes "svsim" ∷ codes "explain" ∷ codes "t" ∷ codes "--LINE=7"
        ∷ []) ≡ None }
{}

/// `--svg`, of `explain` alone.
pub fn worked_pictures()
    ensures svg { asked (codes "svsim" ∷ codes "explain" ∷ codes "--svg" ∷ codes "t" ∷ codes "7"
        ∷ []) ≡ Some (asking (Picture no_filter 7) (codes "t")) }
    ensures svg_first { asked (codes "svsim" ∷ codes "--svg" ∷ codes "explain" ∷ codes "-"
        ∷ codes "7" ∷ []) ≡ Some (asking (Picture no_filter 7) (codes "-")) }
    ensures svg_last { asked (codes "svsim" ∷ codes "explain" ∷ codes "t" ∷ codes "7"
        ∷ codes "--svg" ∷ []) ≡ Some (asking (Picture no_filter 7) (codes "t")) }
    ensures svg_and_filters { asked (codes "svsim" ∷ codes "explain" ∷ codes "--hart=2"
        ∷ codes "t" ∷ codes "--svg" ∷ codes "7" ∷ codes "--kind" ∷ codes "use" ∷ [])
        ≡ Some (asking (Picture (of_hart 2 (of_kind false Used no_filter)) 7) (codes "t")) }
    ensures svg_as_file { asked (codes "svsim" ∷ codes "explain" ∷ codes "--" ∷ codes "--svg"
        ∷ codes "7" ∷ []) ≡ Some (asking (Explain no_filter 7) (codes "--svg")) }
    ensures svg_without_line { asked (codes "svsim" ∷ codes "explain" ∷ codes "--svg" ∷ codes "t"
        ∷ []) ≡ None }
    ensures svg_twice { asked (codes "svsim" ∷ codes "explain" ∷ codes "--svg" ∷ codes "--svg"
        ∷ codes "t" ∷ codes "7" ∷ []) ≡ None }
    ensures svg_with_value { asked (codes "svsim" ∷ codes "explain" ∷ codes "--svg=yes"
        ∷ codes "t" ∷ codes "7" ∷ []) ≡ None }
    ensures part_of_svg { asked (codes "svsim" ∷ codes "explain" ∷ codes "--sv" ∷ codes "t"
        ∷ codes "7" ∷ []) ≡ None }
    ensures svg_and_json { asked (codes "svsim" ∷ codes "explain" ∷ codes "--svg"
        ∷ codes "--json" ∷ codes "t" ∷ codes "7" ∷ []) ≡ None }
    ensures svg_of_watch { asked (codes "svsim" ∷ codes "watch" ∷ codes "--svg" ∷ codes "t" ∷ [])
        ≡ None }
    ensures svg_of_draw { asked (codes "svsim" ∷ codes "draw" ∷ codes "f" ∷ codes "--svg" ∷ [])
        ≡ None }
{}

/// The text that `clap` gives to an option, right or wrong.
pub fn worked_texts()
    ensures given { text_taken (codes "hart") (codes "--hart" ∷ codes "1" ∷ []) ≡ Some (codes "1") }
    ensures not_given { text_taken (codes "hart") [] ≡ None }
    ensures dash { text_taken (codes "hart") (codes "--hart" ∷ codes "-" ∷ []) ≡ Some (codes "-") }
    ensures empty { text_taken (codes "hart") (codes "--hart=" ∷ []) ≡ Some [] }
    ensures empty_word { text_taken (codes "hart") (codes "--hart" ∷ [] ∷ []) ≡ Some [] }
    ensures two_equals { text_taken (codes "hart") (codes "--hart=1=2" ∷ []) ≡ Some (codes "1=2") }
    ensures equals_behind { text_taken (codes "hart") (codes "--hart" ∷ codes "=1" ∷ [])
        ≡ Some (codes "=1") }
    ensures again { text_taken (codes "hart") (codes "--hart" ∷ codes "1" ∷ codes "--hart=1" ∷ [])
        ≡ None }
    ensures nothing { text_taken (codes "hart") (codes "--hart" ∷ []) ≡ None }
{}
