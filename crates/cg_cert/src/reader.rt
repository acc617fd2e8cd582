// Reading a certificate, one byte at a time.
ghost use Rattle.std.specs.Prelude.{◌≡◌, OnOk, IfOk, Some};
ghost use Rattle.cg_lexer.specs.Bytes.{small, part_of_name};
ghost use Rattle.cg_cert.specs.Machine as machine;
ghost use Rattle.cg_cert.specs.Views.{state_of};
ghost use Rattle.cg_cert.specs.declared.word.Lead.TheVariants.{End};
ghost use Rattle.cg_cert.specs.declared.word.Stage.TheVariants.{Inner};

use crate::cert::{Cert, CertFun, CertNode};
use crate::word::{Lead, Stage, is_begun, is_behind, lead_of, mark_of};
use cg_base::{Items, Memory, Name, is_digit};
use cg_core::{Mark, Node};
use std::alloc::Global;
use std::mem::{drop, replace};

/// Where in a text the reader stands: in the first word of a line; behind the `fun ` of the first function, or in a function; in a
/// name; before a mark of a node's next string, or behind one; behind the last line; or where nothing goes on.
#[derive(Clone, Copy)]
pub(crate) enum Mode {
    Word(Stage),
    BeforeName,
    BehindFun,
    InName,
    BeforeMark(Node),
    InMarks(Node),
    Finished,
    Stuck,
}

/// What was read: where the reader stands, the bytes of the word or the name at hand, the functions before, the name and the
/// nodes of the function at hand, and the mark strings of the node at hand with the one that is read.
pub(crate) struct Reader {
    mode: Mode,
    word: Vec<u8>,
    funs: Items<CertFun>,
    name: Name,
    nodes: Items<CertNode>,
    strings: Items<Items<Mark>>,
    string: Items<Mark>,
}

impl Drop for Reader {
    fn drop(self) {
        let Reader {
            mode: _,
            word,
            funs,
            name,
            nodes,
            strings,
            string,
        } = self;
        drop(word);
        drop(funs);
        drop(name);
        drop(nodes);
        drop(strings);
        drop(string);
    }
}

// Whether a name may begin with a byte, and go on with it.
fn is_small(byte: u8) -> bool
    ensures { result ≡ small byte }
{
    byte.is_ascii_lowercase() || byte == b'_'
}

fn is_part_of_name(byte: u8) -> bool
    ensures { result ≡ part_of_name byte }
{
    is_small(byte) || byte.is_ascii_uppercase() || is_digit(byte) || byte == b'\''
}

// Behind the space that follows a node's word.
fn spaced(node: Node) -> Mode
    ensures { result ≡ machine.spaced node }
{
    match node {
        Node::Fun => Mode::BehindFun,
        _ => Mode::BeforeMark(node),
    }
}

impl Reader {
    /// Before the first byte. Want of memory is its one refusal.
    pub(crate) fn new(alloc: Global) -> Result<Reader, Memory>
        ensures { IfOk result (λ reader. state_of reader ≡ machine.begin) }
    {
        Ok(Reader {
            mode: Mode::Word(Stage::Top),
            word: Vec::new(alloc),
            funs: Items::new(alloc),
            name: Name::new(alloc, b"")?,
            nodes: Items::new(alloc),
            strings: Items::new(alloc),
            string: Items::new(alloc),
        })
    }

    // The word or the name at hand is read.
    fn enter(&mut self, mode: Mode)
        ensures { state_of self.new ≡ machine.go_on mode (state_of self.old) }
    {
        self.word.clear();
        self.mode = mode;
    }

    // A byte more of the word or the name at hand.
    fn push_byte(&mut self, mode: Mode, byte: u8) -> Result<(), Memory>
        ensures { OnOk result (state_of self.new ≡ machine.longer mode byte (state_of self.old)) }
    {
        self.word.push(byte)?;
        self.mode = mode;
        Ok(())
    }

    // A name begins.
    fn begin_name(&mut self, byte: u8) -> Result<(), Memory>
        ensures { OnOk result (state_of self.new ≡ machine.named byte (state_of self.old)) }
    {
        self.word.clear();
        self.push_byte(Mode::InName, byte)
    }

    // The name at hand is that of a function.
    fn begin_function(&mut self, alloc: Global) -> Result<(), Memory>
        ensures { OnOk result (state_of self.new ≡ machine.begun (state_of self.old)) }
    {
        self.name = Name::new(alloc, self.word.as_slice())?;
        self.enter(Mode::Word(Stage::Inner));
        Ok(())
    }

    // The function at hand is whole.
    fn end_function(&mut self, alloc: Global) -> Result<(), Memory>
        ensures { OnOk result (state_of self.new ≡ machine.closed (state_of self.old)) }
    {
        let name = replace(&mut self.name, Name::new(alloc, b"")?);
        let nodes = replace(&mut self.nodes, Items::new(alloc));
        self.funs.push(CertFun { name, nodes })
    }

    // A node without mark strings.
    fn push_leaf(&mut self, alloc: Global, node: Node) -> Result<(), Memory>
        ensures { OnOk result (state_of self.new ≡ machine.leaf node (state_of self.old)) }
    {
        let marks = Items::new(alloc);
        self.nodes.push(CertNode { node, marks })?;
        self.enter(Mode::Word(Stage::Inner));
        Ok(())
    }

    // The mark string at hand is whole.
    fn end_string(&mut self, alloc: Global) -> Result<(), Memory>
        ensures { OnOk result (state_of self.new ≡ machine.next_string (state_of self.old)) }
    {
        let string = replace(&mut self.string, Items::new(alloc));
        self.strings.push(string)
    }

    // The node at hand is whole.
    fn end_node(&mut self, alloc: Global, node: Node) -> Result<(), Memory>
        ensures { OnOk result (state_of self.new ≡ machine.node node (state_of self.old)) }
    {
        self.end_string(alloc)?;
        let marks = replace(&mut self.strings, Items::new(alloc));
        self.nodes.push(CertNode { node, marks })?;
        self.enter(Mode::Word(Stage::Inner));
        Ok(())
    }

    // A mark of a node, where it is one.
    fn push_mark(&mut self, node: Node, mark: Option<Mark>) -> Result<(), Memory>
        ensures { OnOk result (state_of self.new ≡ machine.marked node mark (state_of self.old)) }
    {
        match mark {
            Some(mark) => {
                self.string.push(mark)?;
                self.mode = Mode::InMarks(node);
            }
            None => self.mode = Mode::Stuck,
        }
        Ok(())
    }

    // Behind the word of a node.
    fn on_node(&mut self, alloc: Global, node: Node, byte: u8) -> Result<(), Memory>
        ensures { OnOk result (state_of self.new ≡ machine.on_node node byte (state_of self.old)) }
    {
        if byte == b'\n' {
            return self.push_leaf(alloc, node);
        }
        self.enter(spaced(node));
        Ok(())
    }

    // Behind the word of the last line, in a function.
    fn on_end(&mut self, alloc: Global, byte: u8) -> Result<(), Memory>
        ensures { OnOk result (state_of self.new ≡ machine.on_lead Inner (Some End) byte (state_of self.old)) }
    {
        if byte == b'\n' {
            self.end_function(alloc)?;
            self.enter(Mode::Finished);
        } else {
            self.mode = Mode::Stuck;
        }
        Ok(())
    }

    // Behind a word.
    fn on_lead(
        &mut self,
        alloc: Global,
        stage: Stage,
        lead: Option<Lead>,
        byte: u8,
    ) -> Result<(), Memory>
        ensures { OnOk result (state_of self.new ≡ machine.on_lead stage lead byte (state_of self.old)) }
    {
        match (stage, lead) {
            (Stage::Top, Some(Lead::Head)) => self.enter(Mode::Word(Stage::Outer)),
            (Stage::Outer, Some(Lead::Node(Node::Fun))) if byte == b' ' => self.enter(
                Mode::BeforeName,
            ),
            (Stage::Outer, Some(Lead::End)) if byte == b'\n' => self.enter(Mode::Finished),
            (Stage::Inner, Some(Lead::Node(node))) => return self.on_node(alloc, node, byte),
            (Stage::Inner, Some(Lead::End)) => return self.on_end(alloc, byte),
            _ => self.mode = Mode::Stuck,
        }
        Ok(())
    }

    // In a word.
    fn in_word(&mut self, alloc: Global, stage: Stage, byte: u8) -> Result<(), Memory>
        ensures { OnOk result (state_of self.new ≡ machine.in_word stage byte (state_of self.old)) }
    {
        if is_behind(stage, byte) {
            let lead = lead_of(stage, self.word.as_slice());
            return self.on_lead(alloc, stage, lead, byte);
        }
        self.push_byte(Mode::Word(stage), byte)?;
        if !is_begun(stage, self.word.as_slice()) {
            self.mode = Mode::Stuck;
        }
        Ok(())
    }

    // Behind `fun ` in a function.
    fn behind_fun(&mut self, alloc: Global, byte: u8) -> Result<(), Memory>
        ensures { OnOk result (state_of self.new ≡ machine.behind_fun byte (state_of self.old)) }
    {
        if is_small(byte) {
            self.end_function(alloc)?;
            self.begin_name(byte)
        } else {
            self.push_mark(Node::Fun, mark_of(byte))
        }
    }

    // In a name.
    fn in_name(&mut self, alloc: Global, byte: u8) -> Result<(), Memory>
        ensures { OnOk result (state_of self.new ≡ machine.in_name byte (state_of self.old)) }
    {
        if is_part_of_name(byte) {
            self.push_byte(Mode::InName, byte)
        } else if byte == b'\n' {
            self.begin_function(alloc)
        } else {
            self.mode = Mode::Stuck;
            Ok(())
        }
    }

    // Behind a mark of a node.
    fn behind_mark(&mut self, alloc: Global, node: Node, byte: u8) -> Result<(), Memory>
        ensures { OnOk result (state_of self.new ≡ machine.behind_mark node byte (state_of self.old)) }
    {
        match byte {
            b' ' => {
                self.end_string(alloc)?;
                self.mode = Mode::BeforeMark(node);
                Ok(())
            }
            b'\n' => self.end_node(alloc, node),
            _ => self.push_mark(node, mark_of(byte)),
        }
    }

    // Before the name of the first function.
    fn before_name(&mut self, byte: u8) -> Result<(), Memory>
        ensures { OnOk result (state_of self.new ≡ machine.before_name byte (state_of self.old)) }
    {
        if is_small(byte) {
            return self.begin_name(byte);
        }
        self.mode = Mode::Stuck;
        Ok(())
    }

    /// One byte more. Want of memory is its one refusal.
    pub(crate) fn step(&mut self, alloc: Global, byte: u8) -> Result<(), Memory>
        ensures { OnOk result (state_of self.new ≡ machine.step (state_of self.old) byte) }
    {
        match self.mode {
            Mode::Word(stage) => self.in_word(alloc, stage, byte),
            Mode::BeforeName => self.before_name(byte),
            Mode::BehindFun => self.behind_fun(alloc, byte),
            Mode::InName => self.in_name(alloc, byte),
            Mode::BeforeMark(node) => self.push_mark(node, mark_of(byte)),
            Mode::InMarks(node) => self.behind_mark(alloc, node, byte),
            Mode::Finished | Mode::Stuck => {
                self.mode = Mode::Stuck;
                Ok(())
            }
        }
    }

    /// Whether a certificate may still come of it.
    pub(crate) fn is_open(&self) -> bool
        ensures { result ≡ machine.is_open (state_of self.now) }
    {
        !matches!(self.mode, Mode::Stuck)
    }

    /// The certificate that ends behind the last byte, where one does.
    pub(crate) fn finish(&mut self, alloc: Global) -> Option<Cert>
        ensures { result ≡ machine.finish (state_of self.old) }
    {
        match self.mode {
            Mode::Finished => Some(Cert {
                funs: replace(&mut self.funs, Items::new(alloc)),
            }),
            _ => None,
        }
    }
}
