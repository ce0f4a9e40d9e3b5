// Rows, and the key by which a question finds its row.
ghost use Rattle.std.specs.Prelude.{◌≡◌, true};
ghost use Rattle.host.specs.Numbers.{question_number};
ghost use Rattle.host.specs.Questions.{askable};
ghost use Rattle.rows.specs.Rows.{Speaks, key, key_of, row_of, first_row, row_for};

use host::{Question, QuestionKind};

// What a question looks for: its number and its seven arguments. What the question does not use is 0. By rule a key and a row
// are named numbers and no array, and the number may be no question's.
#[derive(Clone, Copy, PartialEq, Eq)]
pub struct Key {
    pub question: u32,
    pub a1: u32,
    pub a2: u32,
    pub a3: u32,
    pub a4: u32,
    pub a5: u32,
    pub a6: u32,
    pub a7: u32,
}

// A row: a key, and up to three answers.
#[derive(Clone, Copy, PartialEq, Eq)]
pub struct Row {
    pub key: Key,
    pub r1: u32,
    pub r2: u32,
    pub r3: u32,
}

impl Row {
    // The kind of question that it answers; none where no question has its number.
    pub fn question(&self) -> Option<QuestionKind>
        ensures { Speaks self.now result }
    {
        QuestionKind::try_from(self.key.question).ok()
    }
}

// By rule a row is written as eleven numbers: the question's, its seven arguments, and three answers.
impl From<[u32; 11]> for Row {
    ghost from_gives = { λ numbers row. row ≡ row_of numbers };

    fn from(numbers: [u32; 11]) -> Row {
        let [question, a1, a2, a3, a4, a5, a6, a7, r1, r2, r3] = numbers;
        let key = Key {
            question,
            a1,
            a2,
            a3,
            a4,
            a5,
            a6,
            a7,
        };
        Row { key, r1, r2, r3 }
    }
}

// A key with at most three arguments; the others are not used.
fn short_key(kind: QuestionKind, a1: u32, a2: u32, a3: u32) -> Key
    ensures { result ≡ key (question_number kind) a1 a2 a3 0 0 0 0 }
{
    Key {
        question: kind.into(),
        a1,
        a2,
        a3,
        a4: 0,
        a5: 0,
        a6: 0,
        a7: 0,
    }
}

// The key of a question, whose numbers have 32 bits.
impl From<Question> for Key {
    ghost from_gives = { λ question key. (key ≡ key_of question) × (askable question ≡ true) };

    fn from(question: Question) -> Key {
        match question {
            Question::Form { ty } => short_key(QuestionKind::Form, ty, 0, 0),
            Question::Own { ty, place } => short_key(QuestionKind::Own, ty, place, 0),
            Question::Stray { ty, place } => short_key(QuestionKind::Stray, ty, place, 0),
            Question::Item(at) => {
                short_key(QuestionKind::Item, at.kind.into(), at.container, at.place)
            }
            Question::Bound { ty, place } => short_key(QuestionKind::Bound, ty, place, 0),
            Question::Supers { tr, place } => short_key(QuestionKind::Supers, tr, place, 0),
            Question::Visible(item) => short_key(
                QuestionKind::Visible,
                item.kind.into(),
                item.container,
                item.place,
            ),
            Question::Skips { tr } => short_key(QuestionKind::Skips, tr, 0, 0),
            Question::Applies(trial) => Key {
                question: QuestionKind::Applies.into(),
                a1: trial.class.into(),
                a2: trial.container,
                a3: trial.place,
                a4: trial.origin,
                a5: trial.ty,
                a6: trial.wrap.into(),
                a7: trial.mode.into(),
            },
            Question::Source(item) => Key {
                a4: item.wrap.into(),
                a5: item.mode.into(),
                ..short_key(QuestionKind::Source, item.tr, item.place, item.ty)
            },
        }
    }
}

// The first row that answers.
pub(crate) fn first_row(rows: &[Row], key: Key) -> Option<Row>
    ensures { result ≡ first_row rows.now key }
{
    rows.iter().find(|row| row.key == key).copied()
}

// The row that answers a question.
pub fn row_for(rows: &[Row], question: Question) -> Option<Row>
    ensures { result ≡ row_for rows.now question }
{
    first_row(rows, question.into())
}
