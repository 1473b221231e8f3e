// The words that a line of a configuration may begin with, and how many fields each has.
#![tactic(auto)]

ghost use Rattle.std.specs.Prelude.{◌≡◌};
ghost use Rattle.plan_keywords.specs.StatementWords as Words;

use text::part::same;

// The words that a line may begin with.
#[derive(Clone, Copy)]
pub enum Word {
    Node,
    Set,
    Link,
    Route,
}

// The word that a text is, if it is one.
pub fn read_word(text: &[u8]) -> Option<Word>
    ensures { result ≡ Words.word_of text.now }
{
    if same(text, b"node") {
        return Some(Word::Node);
    }
    if same(text, b"set") {
        return Some(Word::Set);
    }
    if same(text, b"link") {
        return Some(Word::Link);
    }
    if same(text, b"route") {
        return Some(Word::Route);
    }
    None
}

// How many fields a line with the word has, the word among them.
pub fn fields(word: Word) -> u8
    ensures { result ≡ Words.fields_of word }
{
    match word {
        Word::Node => 3,
        Word::Set => 3,
        Word::Link => 4,
        Word::Route => 4,
    }
}

// The same by the word that a text is; 0 where no line begins with the text.
pub fn fields_in(word: Option<Word>) -> u8
    ensures { result ≡ Words.fields_in word }
{
    match word {
        Some(word) => fields(word),
        None => 0,
    }
}
