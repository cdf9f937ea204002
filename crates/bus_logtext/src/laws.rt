//! Laws of the text of logs: each function does nothing, and its contract is the law.

ghost use Rattle.std.specs.Prelude.{◌≡◌, ◌≢◌, ℕ, ◌↔◌, ◌^◌, ◌<◌, ◌≤◌, List, [], ◌∷◌, ◌++◌, All};
ghost use Rattle.std.specs.Prelude.{Some, None, Ok, Err, codes, length, slice_index, ◌⊎◌, ◌+◌};
ghost use Rattle.bus_register.specs.declared.limits.TheConstants.{MOST_LOG_WORDS, MOST_MESSAGES};
ghost use Rattle.bus_deliverylog.specs.Logs.{IsFirstBadOf, IsTornOf};
ghost use Rattle.bus_batch.specs.Frames.{Frame, AreFrames, AreFramesOf, IsFrame, frame_words};
ghost use Rattle.bus_batch.specs.Frames.{log_words};
ghost use Rattle.bus_script.specs.Grammar.{script_lines};
ghost use Rattle.bus_script.specs.declared.answers.Outcome.{Outcome};
ghost use Rattle.bus_script.specs.declared.answers.Outcome.TheVariants.{Done, Refused};
ghost use Rattle.bus_logtext.specs.Words.{word_of, words_of, words_text};
ghost use Rattle.bus_logtext.specs.declared.faults.Refusal.{Refusal};
ghost use Rattle.bus_logtext.specs.Lines.{IsWordLine, AreWordLines};
ghost use Rattle.bus_logtext.specs.Text.{log_text, bad_word_text};
ghost use Rattle.bus_logtext.specs.Answers.{IsAnswer};
ghost use Rattle.bus_journal.specs.Format.{Heading, IsHeading, journal_bytes, word_bytes};
ghost use Rattle.bus_journal.specs.Format.{words_bytes, checksum};
ghost use Rattle.bus_journal.specs.Reading.{Answer, AreFew, Reads};
ghost use Rattle.bus_journal.specs.declared.ends.JournalEnd.TheVariants as end;
ghost use Rattle.bus_logtext.specs.Journals.{IsJournalAnswer, IsRepaired, IsBeyondRepair, Mends};
ghost use Rattle.bus_logtext.specs.Journals.{journal_text};

use bus_deliverylog::laws::readings_are_exact;
use bus_journal::laws::{
    journals_are_one, journals_refuse, mended_journals_are_whole, written_journals_are_read,
};

/// A line is a word just where it is spelled so.
pub fn lines_are_words()
    ensures { (line : List ℕ) (word : ℕ) → (word_of line ≡ Some word) ↔ IsWordLine line word }
{}

/// Lines have words just where those that are not passed over are spelled so, and are not too many.
pub fn inputs_are_words()
    ensures { (input words : List ℕ) → (words_of input ≡ Ok words)
        ↔ (AreWordLines (script_lines input) words × (length words ≤ MOST_LOG_WORDS)) }
{}

/// An input has at most one answer.
pub fn log_answers_are_one()
    ensures { (most senders : ℕ) (input : List ℕ) (outcome other : Outcome)
        (text another : List ℕ) → most ≤ MOST_MESSAGES
        → IsAnswer most senders input outcome text → IsAnswer most senders input other another
        → (outcome ≡ other) × (text ≡ another) }
{
    readings_are_exact();
}

/// The words of a log, printed one a line, are answered with the lines of its frames.
pub fn printed_logs_are_told()
    ensures { (most senders : ℕ) (frames : List Frame) → AreFramesOf most senders frames
        → All (λ word. word < 2 ^ 64) (log_words frames)
        → length (log_words frames) ≤ MOST_LOG_WORDS
        → IsAnswer most senders (words_text (log_words frames)) Done (log_text frames) }
{}

/// What is no word: a digit too few, a digit too many, and a letter that is no digit. What no
/// answer does: to tell a log where words end within a frame, where one is bad or where a line was
/// refused, another log than words spell, or a line more; to refuse words that are a log; to name
/// another place than that of the first bad word; and to tell a log with more messages in a frame
/// than it was asked for.
pub fn log_answers_refuse()
    ensures short { word_of (codes "400002000000000") ≡ None }
    ensures long { word_of (codes "40000200000000000") ≡ None }
    ensures letter { word_of (codes "400002000000000g") ≡ None }
    ensures torn { (most senders : ℕ) (input words : List ℕ) (text : List ℕ)
        → words_of input ≡ Ok words → IsTornOf most senders words
        → ¬ IsAnswer most senders input Done text }
    ensures other { (most senders : ℕ) (input : List ℕ) (text : List ℕ) (frames : List Frame)
        → most ≤ MOST_MESSAGES → AreFrames senders frames
        → words_of input ≡ Ok (log_words frames)
        → IsAnswer most senders input Done text → text ≡ log_text frames }
    ensures bad { (most senders place : ℕ) (input words text : List ℕ)
        → words_of input ≡ Ok words → IsFirstBadOf most senders words place
        → ¬ IsAnswer most senders input Done text }
    ensures line_refused { (most senders : ℕ) (input text : List ℕ) (refusal : Refusal)
        → words_of input ≡ Err refusal → ¬ IsAnswer most senders input Done text }
    ensures line_more { (most senders : ℕ) (input line : List ℕ) (frames : List Frame)
        → most ≤ MOST_MESSAGES → AreFrames senders frames
        → words_of input ≡ Ok (log_words frames) → line ≢ []
        → ¬ IsAnswer most senders input Done (log_text frames ++ line) }
    ensures end_unread { (most senders : ℕ)
        → ¬ IsAnswer most senders [] Done (codes "end" ++ 10 ∷ []) }
    ensures whole { (most senders : ℕ) (input text : List ℕ) (frames : List Frame)
        → AreFramesOf most senders frames → words_of input ≡ Ok (log_words frames)
        → ¬ IsAnswer most senders input Refused text }
    ensures place { (most senders place : ℕ) (input words text : List ℕ)
        → words_of input ≡ Ok words → IsFirstBadOf most senders words place
        → IsAnswer most senders input Refused text → text ≡ bad_word_text place }
    ensures many { (most senders : ℕ) (input text : List ℕ) (frames : List Frame)
        → most ≤ MOST_MESSAGES → AreFrames senders frames → (¬ AreFramesOf most senders frames)
        → words_of input ≡ Ok (log_words frames) → ¬ IsAnswer most senders input Done text }
{
    readings_are_exact();
}

/// Bytes have at most one answer as a journal, and one repair.
pub fn journal_answers_are_one()
    ensures answers { (input : List ℕ) (outcome other : Outcome) (text another : List ℕ)
        → IsJournalAnswer input outcome text → IsJournalAnswer input other another
        → (outcome ≡ other) × (text ≡ another) }
    ensures repairs { (input : List ℕ) (outcome other : Outcome) (left another : List ℕ)
        → IsRepaired input outcome left → IsRepaired input other another
        → (outcome ≡ other) × (left ≡ another) }
{
    journals_are_one();
}

/// What a repair leaves is told as whole, with the lines of the frames that were told before.
pub fn repaired_journals_are_whole()
    ensures { (input left text : List ℕ) (outcome : Outcome) → IsRepaired input Done left
        → IsJournalAnswer left outcome text
        → (outcome ≡ Done) × ((frames : List Frame) × (a : Answer) × Reads input frames a
        × (text ≡ journal_text a.heading frames end.Whole a.whole)) }
{
    mended_journals_are_whole();
    written_journals_are_read();
}

/// What is written as a journal is answered with just its lines, as whole.
pub fn written_journals_are_told()
    ensures { (h : Heading) (frames : List Frame) → IsHeading h → AreFrames h.senders frames
        → AreFew h.most frames → IsJournalAnswer (journal_bytes h frames) Done
        (journal_text h frames end.Whole (length (journal_bytes h frames))) }
{
    written_journals_are_read();
}

/// What no answer of a journal does: to call one done which has a byte more, to leave such a byte
/// in a repair, and to call one done or repair it of which the last record is damaged.
pub fn journal_answers_refuse()
    ensures torn { (h : Heading) (frames : List Frame) (byte : ℕ) (input text : List ℕ)
        → IsHeading h → AreFrames h.senders frames → AreFew h.most frames
        → input ≡ journal_bytes h frames ++ byte ∷ [] → ¬ IsJournalAnswer input Done text }
    ensures left { (h : Heading) (frames : List Frame) (byte : ℕ) (input : List ℕ) → IsHeading h
        → AreFrames h.senders frames → AreFew h.most frames
        → input ≡ journal_bytes h frames ++ byte ∷ [] → ¬ IsRepaired input Done input }
    ensures damaged { (h : Heading) (frames : List Frame) (f : Frame) (sum : List ℕ)
        (input text : List ℕ) → IsHeading h → AreFrames h.senders frames → AreFew h.most frames
        → IsFrame h.senders f → length sum ≡ 8 → slice_index sum 7 ≢ 0 → sum ≢ checksum
        (word_bytes (h.place + length (log_words frames)) ++ words_bytes (frame_words f))
        → input ≡ journal_bytes h frames ++ (words_bytes (frame_words f) ++ sum)
        → ¬ (IsJournalAnswer input Done text ⊎ IsRepaired input Done text) }
{
    journals_refuse();
}
