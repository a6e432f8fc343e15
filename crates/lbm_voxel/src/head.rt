//! The head of a voxel file: the words before the values.

ghost use Rattle.std.specs.Prelude.{◌≡◌, ◌≤◌, length, map, take, drop, ◌∷◌, [], option_map, IfOk};
ghost use Rattle.std.specs.List.{list_any, position_or_len};
ghost use Rattle.lbm_voxel.specs.Text.{words};
ghost use Rattle.lbm_voxel.specs.Head.{is_keyword, types, fits, heads, fitting, head_in, strange_word};
ghost use Rattle.lbm_voxel.specs.Head.{is_dimensions, is_point_data, number_at, side, count_in};

use crate::text::split_word;
use lbm_number::number_of;
use std::alloc::{AllocError, Global};

/// What a word of a head has to be.
#[derive(Clone, Copy, Debug, PartialEq, Eq)]
pub(crate) enum WordKind {
    /// `DATASET`, in letters of either case, and so for the other keywords.
    Dataset,
    /// `STRUCTURED_POINTS`.
    StructuredPoints,
    /// `DIMENSIONS`.
    Dimensions,
    /// `ORIGIN`.
    Origin,
    /// `SPACING` or `ASPECT_RATIO`.
    Spacing,
    /// `POINT_DATA`.
    PointData,
    /// `SCALARS`.
    Scalars,
    /// The type of the values: `unsigned_char`, `char`, `short` or `int`.
    ScalarType,
    /// `1`, the number of values at a point.
    One,
    /// `LOOKUP_TABLE`.
    LookupTable,
    /// A number.
    Number,
    /// Any word.
    Any,
}

/// The kinds of the words of a head: each part is a keyword with three words of a kind, and the number of values at a
/// point stands behind their type or not.
macro_rules! head {
    ($($part:ident $of:ident),* $(; $one:ident)?) => {
        &[
            WordKind::Dataset,
            WordKind::StructuredPoints,
            $(WordKind::$part, WordKind::$of, WordKind::$of, WordKind::$of,)*
            WordKind::PointData,
            WordKind::Number,
            WordKind::Scalars,
            WordKind::Any,
            WordKind::ScalarType,
            $(WordKind::$one,)?
            WordKind::LookupTable,
            WordKind::Any,
        ]
    };
}

const HEADS: [&[WordKind]; 12] = [
    head!(Dimensions Number, Origin Any, Spacing Any),
    head!(Dimensions Number, Spacing Any, Origin Any),
    head!(Origin Any, Dimensions Number, Spacing Any),
    head!(Origin Any, Spacing Any, Dimensions Number),
    head!(Spacing Any, Dimensions Number, Origin Any),
    head!(Spacing Any, Origin Any, Dimensions Number),
    head!(Dimensions Number, Origin Any, Spacing Any; One),
    head!(Dimensions Number, Spacing Any, Origin Any; One),
    head!(Origin Any, Dimensions Number, Spacing Any; One),
    head!(Origin Any, Spacing Any, Dimensions Number; One),
    head!(Spacing Any, Dimensions Number, Origin Any; One),
    head!(Spacing Any, Origin Any, Dimensions Number; One),
];

/// How many words the longest head has.
const MOST_WORDS: usize = 22;

/// The kinds of the words of each head.
#[tactic(auto, unfolding(crate::specs::Head::heads))]
fn heads() -> &'static [&'static [WordKind]]
    ensures { map (λ head. head.now) result.now ≡ heads }
{
    &HEADS
}

fn is_keyword(keyword: &[u8], word: &[u8]) -> bool
    ensures { result ≡ is_keyword keyword.now word.now }
{
    word.eq_ignore_ascii_case(keyword)
}

/// Whether a word is the type of integers that are read.
fn is_type(word: &[u8]) -> bool
    ensures { result ≡ list_any (λ type. is_keyword type word.now) types }
{
    is_keyword(b"unsigned_char", word)
        || is_keyword(b"char", word)
        || is_keyword(b"short", word)
        || is_keyword(b"int", word)
}

impl WordKind {
    /// Whether a word is of this kind.
    #[tactic(auto, unfolding(crate::specs::Head::fits))]
    fn fits(self, word: &[u8]) -> bool
        ensures { result ≡ fits self word.now }
    {
        match self {
            WordKind::Dataset => is_keyword(b"DATASET", word),
            WordKind::StructuredPoints => is_keyword(b"STRUCTURED_POINTS", word),
            WordKind::Dimensions => is_keyword(b"DIMENSIONS", word),
            WordKind::Origin => is_keyword(b"ORIGIN", word),
            WordKind::Spacing => {
                is_keyword(b"SPACING", word) || is_keyword(b"ASPECT_RATIO", word)
            }
            WordKind::PointData => is_keyword(b"POINT_DATA", word),
            WordKind::Scalars => is_keyword(b"SCALARS", word),
            WordKind::ScalarType => is_type(word),
            WordKind::One => word == b"1".as_slice(),
            WordKind::LookupTable => is_keyword(b"LOOKUP_TABLE", word),
            WordKind::Number => number_of(word).is_some(),
            WordKind::Any => true,
        }
    }

    fn is_dimensions(self) -> bool
        ensures { result ≡ is_dimensions self }
    {
        matches!(self, WordKind::Dimensions)
    }

    fn is_point_data(self) -> bool
        ensures { result ≡ is_point_data self }
    {
        matches!(self, WordKind::PointData)
    }
}

/// How many words in a row, from the first on, are of the kinds of a head.
fn fitting(head: &[WordKind], words: &[&[u8]]) -> usize
    ensures value { result ≡ fitting head.now (map (λ word. word.now) words.now) }
    ensures within { result ≤ length words.now }
{
    let count = head.len().min(words.len());
    for n in 0..count {
        if !head[n].fits(words[n]) {
            return n;
        }
    }
    count
}

/// The head with which words begin.
pub(crate) fn head_in(words: &[&[u8]]) -> Option<&'static [WordKind]>
    ensures { option_map (λ head. head.now) result ≡ head_in (map (λ word. word.now) words.now) }
{
    for head in heads() {
        if fitting(head, words) == head.len() {
            return Some(*head);
        }
    }
    None
}

/// The first word with which no head goes on.
pub(crate) fn strange_word(words: &[&[u8]]) -> usize
    ensures value { result ≡ strange_word (map (λ word. word.now) words.now) }
    ensures within { result ≤ length words.now }
{
    let mut most = 0;
    for head in heads() {
        most = most.max(fitting(head, words));
    }
    most
}

/// The first words of a text: as many as the longest head has.
pub(crate) fn first_words(alloc: Global, text: &[u8]) -> Result<Vec<&[u8]>, AllocError>
    ensures value { IfOk result (λ found. map (λ word. word.now) found.items ≡ take MOST_WORDS (words text.now)) }
    ensures few { IfOk result (λ found. length found.items ≤ MOST_WORDS) }
{
    let mut found = Vec::with_capacity(alloc, MOST_WORDS)?;
    let mut rest = text;
    for n in 0..MOST_WORDS {
        let Some((word, after)) = split_word(rest) else {
            return Ok(found);
        };
        found.push(word)?;
        rest = after;
    }
    Ok(found)
}

/// What follows so many words of a text.
pub(crate) fn after_words(text: &[u8], count: usize) -> &[u8]
    ensures { words result.now ≡ drop count (words text.now) }
{
    let mut rest = text;
    for n in 0..count {
        let Some((_, after)) = split_word(rest) else {
            return rest;
        };
        rest = after;
    }
    rest
}

fn place_of_dimensions(head: &[WordKind]) -> usize
    ensures value { result ≡ position_or_len is_dimensions head.now }
    ensures within { result ≤ length head.now }
{
    for (n, kind) in head.iter().enumerate() {
        if kind.is_dimensions() {
            return n;
        }
    }
    head.len()
}

fn place_of_point_data(head: &[WordKind]) -> usize
    ensures value { result ≡ position_or_len is_point_data head.now }
    ensures within { result ≤ length head.now }
{
    for (n, kind) in head.iter().enumerate() {
        if kind.is_point_data() {
            return n;
        }
    }
    head.len()
}

/// The number that a word is, or 0 where there is none.
fn number_at(words: &[&[u8]], n: usize) -> u32
    ensures { result ≡ number_at (map (λ word. word.now) words.now) n }
{
    if n < words.len() {
        number_of(words[n]).unwrap_or(0)
    } else {
        0
    }
}

/// The sides that a head tells.
pub(crate) fn sides(head: &[WordKind], words: &[&[u8]]) -> [u32; 3]
    ensures { result ≡ side head.now (map (λ word. word.now) words.now) 1
        ∷ side head.now (map (λ word. word.now) words.now) 2
        ∷ side head.now (map (λ word. word.now) words.now) 3 ∷ [] }
{
    let at = place_of_dimensions(head);
    [
        number_at(words, at + 1),
        number_at(words, at + 2),
        number_at(words, at + 3),
    ]
}

/// How many values a head tells.
pub(crate) fn count_in(head: &[WordKind], words: &[&[u8]]) -> u32
    ensures { result ≡ count_in head.now (map (λ word. word.now) words.now) }
{
    number_at(words, place_of_point_data(head) + 1)
}
