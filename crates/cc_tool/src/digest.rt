// The digest of a question, by which it is looked up.
ghost use Rattle.std.specs.Prelude.{◌≡◌};
ghost use Rattle.std.specs.List.{fold};
ghost use Rattle.cc_text.specs.Hash.{fnv1a_from as hash_from};
ghost use Rattle.cc_tool.specs.Digest.{ended, ended_pair, question_digest as digest_of};

use cc_host::Question;
use cc_text::{Text, fnv1a, fnv1a_from};

// The hash that goes on over a text and the byte that ends it, which no text in UTF-8 has.
fn over_text(hash: u64, text: &str) -> u64
    ensures { result ≡ hash_from hash (ended text.now) }
{
    fnv1a_from(fnv1a_from(hash, text.as_bytes()), &[0xff])
}

fn over_pair(hash: u64, pair: &(Text, Text)) -> u64
    ensures { result ≡ hash_from hash (ended_pair pair.now) }
{
    over_text(over_text(hash, pair.0.as_str()), pair.1.as_str())
}

fn over_words(hash: u64, words: &[Text]) -> u64
    ensures { result ≡ fold (λ h word. hash_from h (ended word)) hash words.now }
{
    words
        .iter()
        .fold(hash, |hash, word| over_text(hash, word.as_str()))
}

fn over_vars(hash: u64, vars: &[(Text, Text)]) -> u64
    ensures { result ≡ fold (λ h pair. hash_from h (ended_pair pair)) hash vars.now }
{
    vars.iter().fold(hash, |hash, pair| over_pair(hash, pair))
}

/// The digest of a question: the hash FNV-1a over its program, the byte FF, each word followed by FF, the byte FE, and each variable's
/// name, FF, value and FF. Equal questions have one digest, and others may share it, as do two that ask something else of the same
/// program with the same words and variables. It takes no memory.
#[tactic(auto, unfolding(crate::specs::Digest::question_digest), using(crate::proofs::DigestLemmas::by_pieces))]
pub fn question_digest(q: &Question) -> u64
    ensures { result ≡ digest_of q.now }
{
    let program = over_text(fnv1a(&[]), q.program.as_str());
    let words = over_words(program, q.words.as_slice());
    over_vars(fnv1a_from(words, &[0xfe]), q.vars.as_slice())
}

/// A question with its digest, so that the digest is reckoned once for all look-ups.
#[derive(Drop)]
pub(crate) struct Keyed<'q> {
    pub question: &'q Question,
    pub digest: u64,
    ghost digests: { digest ≡ digest_of question.now },
}

impl<'q> Keyed<'q> {
    /// The question with its digest.
    pub fn of(question: &'q Question) -> Keyed<'q>
        ensures { result.question.now ≡ question.now }
    {
        Keyed {
            question,
            digest: question_digest(question),
        }
    }
}
