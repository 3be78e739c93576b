// The first line: the outcome of a search and the turns that it took.
ghost use Rattle.std.specs.Prelude.{◌+◌, ◌≤◌, length};
ghost use Rattle.text.specs.Texts.{Appends};
ghost use Rattle.lines.specs.Plans.{outcome_line, words_of, ending_of};

use text::Text;

#[derive(Clone, Copy)]
pub enum Outcome {
    Solved { sum: usize },
    NoPlan,
    Full { bound: usize },
}

// Appends the line; numbers are decimal without leading zeros. By hand, as all lines here: they go into the caller's memory.
#[tactic(auto, unfolding(crate::specs::Plans::outcome_line))]
pub(crate) fn put_outcome(text: &mut Text, outcome: Outcome, turns: usize)
    ensures text { Appends text.old (outcome_line outcome turns) text.new }
    ensures short { length (outcome_line outcome turns) ≤ 49 }
{
    match outcome {
        Outcome::Solved { sum } => put_words(text, b"solved ", sum, turns),
        Outcome::NoPlan => put_ending(text, b"none ", turns),
        Outcome::Full { bound } => put_words(text, b"full ", bound, turns),
    }
}

// A word, a number, and the turns.
fn put_words(text: &mut Text, word: &[u8], number: usize, turns: usize)
    ensures text { Appends text.old (words_of word.now number turns) text.new }
    ensures short { length (words_of word.now number turns) ≤ length word.now + 42 }
{
    text.put(word);
    text.put_number(number);
    put_ending(text, b" ", turns);
}

// Some words, the turns, and the end of the line.
fn put_ending(text: &mut Text, words: &[u8], turns: usize)
    ensures text { Appends text.old (ending_of words.now turns) text.new }
    ensures short { length (ending_of words.now turns) ≤ length words.now + 21 }
{
    text.put(words);
    text.put_number(turns);
    text.put(b"\n");
}
