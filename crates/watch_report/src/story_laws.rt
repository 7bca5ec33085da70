//! Laws of stories: each call makes no step, and its clauses hold of the definitions alone.
ghost use Rattle.std.specs.Prelude.{◌≡◌, ◌∷◌, List, ℕ, Ok};
ghost use Rattle.watch_causes.specs.declared.stories.Part.{Part};
ghost use Rattle.watch_causes.specs.Findings.{finding_of};
ghost use Rattle.watch_causes.specs.Stories.{IsDueAt, IsStory, in_story, told};
ghost use Rattle.watch_engine.specs.declared.warning.Warning.{Warning};
ghost use Rattle.watch_report.specs.declared.header.Header.{Header};
ghost use Rattle.watch_report.specs.declared.warning.Trigger.{Trigger};
ghost use Rattle.watch_report.specs.Explaining.{made_in};
ghost use Rattle.watch_report.specs.ReadStories.{IsPrintable};
ghost use Rattle.watch_report.specs.StoryTexts.{story_text};
ghost use Rattle.watch_report.specs.TraceText.{Noted, body_of, header_of, records_of, trace_of};

/// The text of a story reads as a trace. Its header is that of the whole trace, and its records are those
/// of the story in their order. At the last of them the verdict is given, of the same finding.
#[tactic(auto, using(crate::proofs::StoryLaws::story_laws))]
pub fn story_reads_as_its_records()
    ensures header { (file : List ℕ) (header : Header) (trigger : Trigger) (newest : Noted)
        (records : List Noted) (w : Warning) (parts : List Part)
        → IsPrintable file header newest records parts
        → header_of (story_text file header trigger newest records w parts) ≡ Ok header }
    ensures records { (file : List ℕ) (header : Header) (trigger : Trigger) (newest : Noted)
        (records : List Noted) (w : Warning) (parts : List Part)
        → IsPrintable file header newest records parts
        → trace_of (records_of header (body_of (story_text file header trigger newest records w
        parts))) ≡ told parts }
    ensures verdict { (file : List ℕ) (header : Header) (trigger : Trigger) (newest : Noted)
        (records : List Noted) (w : Warning) (parts : List Part)
        → IsPrintable file header newest records parts
        → IsStory header.scheme (made_in (newest ∷ records)) w parts
        → (alone : Warning) × (alone.verdict ≡ w.verdict) × (alone.entry.ppn ≡ w.entry.ppn)
        × (finding_of (in_story parts alone) ≡ finding_of w) × IsDueAt header.scheme (trace_of
        (records_of header (body_of (story_text file header trigger newest records w parts))))
        alone }
{}
