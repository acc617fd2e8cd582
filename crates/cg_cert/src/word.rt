// The words with which lines begin.
ghost use Rattle.std.specs.Prelude.{◌≡◌};
ghost use Rattle.std.specs.List.{find};
ghost use Rattle.cg_cert.specs.Texts as texts;
ghost use Rattle.cg_cert.specs.Words as leads;

use cg_core::{Mark, Node};

/// Which line is read: the first one, one before all functions, or one behind a function's line.
#[derive(Clone, Copy)]
pub(crate) enum Stage {
    Top,
    Outer,
    Inner,
}

/// The word with which a line begins: what stands in the first line, the word of a node, or that of the last line. `fun` is that of
/// a function's line too.
#[derive(Clone, Copy)]
pub(crate) enum Lead {
    Head,
    Node(Node),
    End,
}

const TOP: [Lead; 1] = [Lead::Head];

const OUTER: [Lead; 2] = [Lead::Node(Node::Fun), Lead::End];

const INNER: [Lead; 20] = [
    Lead::Node(Node::Var),
    Lead::Node(Node::Unit),
    Lead::Node(Node::Bool),
    Lead::Node(Node::Lit),
    Lead::Node(Node::Fun),
    Lead::Node(Node::Op),
    Lead::Node(Node::App),
    Lead::Node(Node::Let),
    Lead::Node(Node::LetBang),
    Lead::Node(Node::If),
    Lead::Node(Node::Con),
    Lead::Node(Node::Case),
    Lead::Node(Node::Esac),
    Lead::Node(Node::Struct),
    Lead::Node(Node::Member),
    Lead::Node(Node::Take),
    Lead::Node(Node::Put),
    Lead::Node(Node::Cast),
    Lead::Node(Node::Annot),
    Lead::End,
];

/// The word of a node.
pub(crate) fn node_word(node: Node) -> &'static [u8]
    ensures { result.now ≡ texts.node_word node }
{
    match node {
        Node::Var => b"var",
        Node::Unit => b"unit",
        Node::Bool => b"bool",
        Node::Lit => b"lit",
        Node::Fun => b"fun",
        Node::Op => b"op",
        Node::App => b"app",
        Node::Let => b"let",
        Node::LetBang => b"letb",
        Node::If => b"if",
        Node::Con => b"con",
        Node::Case => b"case",
        Node::Esac => b"esac",
        Node::Struct => b"struct",
        Node::Member => b"member",
        Node::Take => b"take",
        Node::Put => b"put",
        Node::Cast => b"cast",
        Node::Annot => b"annot",
    }
}

/// The bytes of a word.
pub(crate) fn spelled(lead: Lead) -> &'static [u8]
    ensures { result.now ≡ leads.spelled lead }
{
    match lead {
        Lead::Head => b"cogent certificate 1",
        Lead::Node(node) => node_word(node),
        Lead::End => b"end",
    }
}

/// The words with which a line may begin.
pub(crate) fn words(stage: Stage) -> &'static [Lead]
    ensures { result.now ≡ leads.words stage }
{
    match stage {
        Stage::Top => &TOP,
        Stage::Outer => &OUTER,
        Stage::Inner => &INNER,
    }
}

/// Whether a line may begin with these bytes.
pub(crate) fn is_begun(stage: Stage, bytes: &[u8]) -> bool
    ensures { result ≡ leads.is_begun (leads.words stage) bytes.now }
{
    words(stage)
        .iter()
        .any(|lead| spelled(*lead).starts_with(bytes))
}

/// The word that these bytes are, where a line may begin with it.
pub(crate) fn lead_of(stage: Stage, bytes: &[u8]) -> Option<Lead>
    ensures { result ≡ leads.lead_of (leads.words stage) bytes.now }
{
    words(stage)
        .iter()
        .copied()
        .find(|lead| spelled(*lead) == bytes)
}

/// Whether a byte ends the word.
pub(crate) fn is_behind(stage: Stage, byte: u8) -> bool
    ensures { result ≡ leads.is_behind stage byte }
{
    match stage {
        Stage::Top => byte == b'\n',
        _ => byte == b'\n' || byte == b' ',
    }
}

/// The mark of a sign.
pub(crate) fn mark_of(byte: u8) -> Option<Mark>
    ensures { result ≡ leads.mark_of byte }
{
    match byte {
        b'-' => Some(Mark::Gone),
        b'L' => Some(Mark::Left),
        b'R' => Some(Mark::Right),
        b'B' => Some(Mark::Both),
        b'O' => Some(Mark::Seen),
        _ => None,
    }
}
