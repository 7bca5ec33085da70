//! Worked rows: the definitions give what the manual gives by hand. Each function does nothing, and
//! each of its clauses is a row.

ghost use Rattle.walk.specs.WorkedRows as rows;
ghost use Rattle.walk.specs.WorkedRowsSv48 as rows_of_sv48;

/// A page of each size is found where its leaf says, and a leaf out of line is none.
#[tactic(auto, using(crate::proofs::WorkedRows::pages))]
pub fn worked_pages()
    ensures small_page { rows.small_page }
    ensures middle_page { rows.middle_page }
    ensures large_page { rows.large_page }
    ensures misaligned { rows.misaligned }
    ensures misaligned_by_half { rows.misaligned_by_half }
    ensures misaligned_large_page { rows.misaligned_large_page }
{}

/// Which access a leaf lets, by U, R, W and X, by the mode, SUM and MXR.
#[tactic(auto, using(crate::proofs::WorkedRows::permissions))]
pub fn worked_permissions()
    ensures sum_lets_no_fetch { rows.sum_lets_no_fetch }
    ensures sum_lets_load { rows.sum_lets_load }
    ensures sum_lets_store { rows.sum_lets_store }
    ensures no_sum { rows.no_sum }
    ensures user_fetches { rows.user_fetches }
    ensures no_mxr { rows.no_mxr }
    ensures mxr_lets_load { rows.mxr_lets_load }
    ensures no_store { rows.no_store }
    ensures supervisor_page { rows.supervisor_page }
    ensures supervisor_fetches { rows.supervisor_fetches }
{}

/// A walk faults without A, for a store without D too, and sets neither.
#[tactic(auto, using(crate::proofs::WorkedRows::accessed_and_dirty))]
pub fn worked_accessed_and_dirty()
    ensures not_accessed { rows.not_accessed }
    ensures clean_page_loads { rows.clean_page_loads }
    ensures not_dirty { rows.not_dirty }
    ensures accessed_before_dirty { rows.accessed_before_dirty }
    ensures dirty_alone { rows.dirty_alone }
    ensures fetch_not_accessed { rows.fetch_not_accessed }
{}

/// Where several faults apply, the first is reported.
#[tactic(auto, using(crate::proofs::WorkedRows::orders_of_faults))]
pub fn worked_orders_of_faults()
    ensures denied_first { rows.denied_first }
    ensures denied_before_misaligned { rows.denied_before_misaligned }
    ensures misaligned_before_accessed { rows.misaligned_before_accessed }
    ensures misaligned_before_dirty { rows.misaligned_before_dirty }
{}

/// What words are invalid or reserved, and which bits count for nothing.
#[tactic(auto, using(crate::proofs::WorkedRows::words))]
pub fn worked_words()
    ensures user_pointer { rows.user_pointer }
    ensures accessed_pointer { rows.accessed_pointer }
    ensures dirty_pointer { rows.dirty_pointer }
    ensures high_bit { rows.high_bit }
    ensures lowest_high_bit { rows.lowest_high_bit }
    ensures write_only { rows.write_only }
    ensures write_and_execute { rows.write_and_execute }
    ensures software_bits { rows.software_bits }
    ensures software_bits_of_pointer { rows.software_bits_of_pointer }
    ensures root_to_itself { rows.root_to_itself }
    ensures all_ones { rows.all_ones }
    ensures all_ones_but_v { rows.all_ones_but_v }
{}

/// G of any pointer on the path, or of the leaf, makes the mapping global.
#[tactic(auto, using(crate::proofs::WorkedRows::global_bits))]
pub fn worked_global_bits()
    ensures global_pointer { rows.global_pointer }
    ensures global_middle_pointer { rows.global_middle_pointer }
    ensures global_leaf { rows.global_leaf }
{}

/// A path that leads to no table, or too deep.
#[tactic(auto, using(crate::proofs::WorkedRows::ends_of_paths))]
pub fn worked_ends_of_paths()
    ensures too_deep { rows.too_deep }
    ensures outside_load { rows.outside_load }
    ensures outside_store { rows.outside_store }
    ensures outside_fetch { rows.outside_fetch }
    ensures highest_table { rows.highest_table }
{}

/// In Sv48 a page of each size is found where its leaf says, and G of the root's pointer makes it
/// global.
#[tactic(auto, using(crate::proofs::WorkedRowsSv48::pages_of_sv48))]
pub fn worked_pages_of_sv48()
    ensures four_loads { rows_of_sv48.four_loads }
    ensures widest_page { rows_of_sv48.widest_page }
    ensures large_page { rows_of_sv48.large_page }
    ensures middle_page { rows_of_sv48.middle_page }
    ensures global_root_pointer { rows_of_sv48.global_root_pointer }
{}

/// Faults on a path of four levels.
#[tactic(auto, using(crate::proofs::WorkedRowsSv48::faults_of_sv48))]
pub fn worked_faults_of_sv48()
    ensures misaligned_widest_page { rows_of_sv48.misaligned_widest_page }
    ensures widest_page_misaligned_by_half { rows_of_sv48.widest_page_misaligned_by_half }
    ensures denied_before_misaligned { rows_of_sv48.denied_before_misaligned }
    ensures widest_page_not_dirty { rows_of_sv48.widest_page_not_dirty }
    ensures outside_at_level_2 { rows_of_sv48.outside_at_level_2 }
    ensures too_deep { rows_of_sv48.too_deep }
    ensures reserved_at_level_2 { rows_of_sv48.reserved_at_level_2 }
{}

/// Which addresses are canonical in Sv48, and not in Sv39.
#[tactic(auto, using(crate::proofs::WorkedRowsSv48::halves_of_sv48))]
pub fn worked_halves_of_sv48()
    ensures last_of_the_low_half { rows_of_sv48.last_of_the_low_half }
    ensures first_of_the_high_half { rows_of_sv48.first_of_the_high_half }
    ensures not_of_sv39 { rows_of_sv48.not_of_sv39 }
    ensures behind_the_low_half { rows_of_sv48.behind_the_low_half }
    ensures before_the_high_half { rows_of_sv48.before_the_high_half }
{}
