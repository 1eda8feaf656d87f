//! What replies are told of the faults that they name.

ghost use Rattle.std.specs.Prelude.{◌≡◌, ◌++◌, [], flat_map, map, IfNone, IfOk, IfSome, option_map, false, true, List};
ghost use Rattle.std.specs.Borrow.{Bor};
ghost use Rattle.chess_views.specs.Lines.{line};
ghost use Rattle.fault_explanations.specs.Explained.{AreOfKnown, Explains, ExplainsEach, example_text, explanation_in, explanation_of, explanation_text};
ghost use Rattle.fault_explanations.specs.declared.explanations.Explanation.{Explanation as ExplanationValue};
ghost use Rattle.fault_explanations.specs.Explained.{code_sentence, sentence_of, named, named_in, sentence, sentences, words_of};

use crate::explanations::{Example, Explanation, all};
use chess_views::push_line;
use std::alloc::{AllocError, Global};

/// The explanation whose code this word is, in any case.
#[tactic(auto, unfolding(crate::specs::Explained::explanation_in))]
fn explanation_in<'t>(explanations: &'t [Explanation], word: &[u8]) -> Option<&'t Explanation>
    ensures { option_map (λ e. e.now) result ≡ explanation_in explanations.now word.now }
{
    explanations.iter().find(|explanation| explanation.code.as_bytes().eq_ignore_ascii_case(word))
}

/// Adds the code of a fault, and where it comes.
#[tactic(auto, unfolding(crate::specs::Explained::sentence))]
fn push_sentence(text: &mut Vec<u8>, explanation: &Explanation) -> Result<(), AllocError>
    ensures { IfOk result (λ _. text.new.items ≡ text.old.items ++ sentence explanation.now) }
{
    text.extend_from_slice(explanation.code.as_bytes())?;
    text.extend_from_slice(b": ")?;
    text.extend_from_slice(explanation.comes.as_bytes())?;
    push_line(text, ".")
}

/// Adds a text that has the fault, and the same mended.
fn push_example(text: &mut Vec<u8>, example: &Option<Example>) -> Result<(), AllocError>
    ensures { IfOk result (λ _. text.new.items ≡ text.old.items ++ example_text example.now) }
{
    if let Some(example) = example {
        push_line(text, "\nExample:")?;
        push_line(text, example.faulty)?;
        push_line(text, "\nMended:")?;
        push_line(text, example.mended)?;
    }
    Ok(())
}

/// Adds all there is to say of a fault.
#[tactic(auto, unfolding(crate::specs::Explained::explanation_text))]
fn push_explanation(text: &mut Vec<u8>, explanation: &Explanation) -> Result<(), AllocError>
    ensures { IfOk result (λ _. text.new.items ≡ text.old.items ++ explanation_text explanation.now) }
{
    push_sentence(text, explanation)?;
    push_line(text, explanation.means)?;
    push_example(text, &explanation.example)
}

/// Adds the same of more faults, each behind an empty line.
fn push_more(text: &mut Vec<u8>, more: &[&Explanation]) -> Result<(), AllocError>
    ensures { IfOk result (λ _. text.new.items ≡ text.old.items
        ++ flat_map (λ next. line [] ++ explanation_text next) (map (λ e. e.now) more.now)) }
{
    for next in more {
        text.push(b'\n')?;
        push_explanation(text, next)?;
    }
    Ok(())
}

/// All there is to say of some faults, with an empty line between each two; none of none.
fn each_explained(alloc: Global, found: &[&Explanation]) -> Result<Option<Vec<u8>>, AllocError>
    ensures some { IfOk result (λ told. IfSome told (λ text. ExplainsEach (map (λ e. e.now) found.now) false text.items)) }
    ensures none { IfOk result (λ told. IfNone told (ExplainsEach (map (λ e. e.now) found.now) true [])) }
{
    let [first, more @ ..] = found else {
        return Ok(None);
    };
    let mut text = Vec::new(alloc);
    push_explanation(&mut text, first)?;
    push_more(&mut text, more)?;
    Ok(Some(text))
}

/// Adds a sentence of each.
#[tactic(auto, unfolding(crate::specs::Explained::sentences))]
fn push_sentences(text: &mut Vec<u8>, explanations: &[Explanation]) -> Result<(), AllocError>
    ensures { IfOk result (λ _. text.new.items ≡ text.old.items ++ sentences explanations.now) }
{
    for explanation in explanations {
        push_sentence(text, explanation)?;
    }
    Ok(())
}

/// The explanation of all groups whose code this word is, in any case.
fn explanation_of(groups: &[&'static [Explanation]], word: &[u8]) -> Option<&'static Explanation>
    ensures { option_map (λ e. e.now) result ≡ explanation_of groups.now word.now }
{
    let mut rest = groups;
    while let [explanations, more @ ..] = rest {
        if let Some(explanation) = explanation_in(explanations, word) {
            return Some(explanation);
        }
        rest = more;
    }
    None
}

/// Adds the sentence of an explanation, if there is one.
fn push_sentence_of(text: &mut Vec<u8>, found: Option<&Explanation>) -> Result<(), AllocError>
    ensures { IfOk result (λ _. text.new.items ≡ text.old.items ++ sentence_of (option_map (λ e. e.now) found.entry)) }
{
    match found {
        Some(explanation) => push_sentence(text, explanation),
        None => Ok(()),
    }
}

/// The same of the explanation whose code a word is, in these groups.
fn push_code_of(
    text: &mut Vec<u8>,
    groups: &[&'static [Explanation]],
    word: &[u8],
) -> Result<(), AllocError>
    ensures { IfOk result (λ _. text.new.items ≡ text.old.items ++ code_sentence groups.now word.now) }
{
    push_sentence_of(text, explanation_of(groups, word))
}

/// Adds the code of a fault, in any case, and where it comes; nothing where the word is no code.
pub fn push_code(text: &mut Vec<u8>, word: &[u8]) -> Result<(), AllocError>
    ensures { IfOk result (λ _. (groups : List (Bor (List ExplanationValue)))
        × AreOfKnown groups × (text.new.items ≡ text.old.items ++ code_sentence groups word.now)) }
{
    push_code_of(text, &all(), word)
}

/// The words of a reply, which stand between its spaces, tabs and ends of lines.
fn words_of(alloc: Global, reply: &[u8]) -> Result<Vec<&[u8]>, AllocError>
    ensures { IfOk result (λ words. map (λ w. w.now) words.items ≡ words_of reply.now) }
{
    reply
        .split(|byte| byte.is_ascii_whitespace())
        .collect(alloc)
}

/// Adds the explanations that words name.
#[tactic(auto, unfolding(crate::specs::Explained::named))]
fn push_named(
    found: &mut Vec<&'static Explanation>,
    groups: &[&'static [Explanation]],
    words: &[&[u8]],
) -> Result<(), AllocError>
    ensures { IfOk result (λ _. map (λ e. e.now) found.new.items ≡ map (λ e. e.now) found.old.items
        ++ named groups.now (map (λ w. w.now) words.now)) }
{
    for word in words {
        if let Some(explanation) = explanation_of(groups, word) {
            found.push(explanation)?;
        }
    }
    Ok(())
}

/// The explanations that words of replies name, in the order of these words.
#[tactic(auto, unfolding(crate::specs::Explained::named_in))]
fn named_in(
    alloc: Global,
    groups: &[&'static [Explanation]],
    replies: &[&str],
) -> Result<Vec<&'static Explanation>, AllocError>
    ensures { IfOk result (λ found. map (λ e. e.now) found.items ≡ named_in groups.now (map (λ s. s.now) replies.now)) }
{
    let mut found = Vec::new(alloc);
    for reply in replies {
        let words = words_of(alloc, reply.as_bytes())?;
        push_named(&mut found, groups, words.as_slice())?;
    }
    Ok(found)
}

/// A sentence of each of all groups.
fn all_sentences(alloc: Global, groups: &[&[Explanation]]) -> Result<Vec<u8>, AllocError>
    ensures { IfOk result (λ text. text.items ≡ flat_map (λ g. sentences g.now) groups.now) }
{
    let mut text = Vec::new(alloc);
    for explanations in groups {
        push_sentences(&mut text, explanations)?;
    }
    Ok(text)
}

/// All there is to say of the faults that words of replies name; none where no word is a code.
fn named_explained(
    alloc: Global,
    groups: &[&'static [Explanation]],
    replies: &[&str],
) -> Result<Option<Vec<u8>>, AllocError>
    ensures some { IfOk result (λ told. IfSome told
        (λ text. ExplainsEach (named_in groups.now (map (λ s. s.now) replies.now)) false text.items)) }
    ensures none { IfOk result (λ told. IfNone told (ExplainsEach (named_in groups.now (map (λ s. s.now) replies.now)) true [])) }
{
    let found = named_in(alloc, groups, replies)?;
    each_explained(alloc, found.as_slice())
}

/// What is shown of replies, or of all faults where none are given; none where no word of the replies is a code.
pub fn explained_text(alloc: Global, replies: &[&str]) -> Result<Option<Vec<u8>>, AllocError>
    ensures shown { IfOk result (λ told. IfSome told (λ text. Explains (map (λ s. s.now) replies.now) false text.items)) }
    ensures unknown { IfOk result (λ told. IfNone told (Explains (map (λ s. s.now) replies.now) true [])) }
{
    let groups = all();
    match replies {
        [] => Ok(Some(all_sentences(alloc, &groups)?)),
        [_, ..] => named_explained(alloc, &groups, replies),
    }
}
