// Terms, literals and clauses, drawn one after the other.
ghost use Rattle.std.specs.Prelude.{◌≡◌, ◌<◌, [], OnOk, codes};
ghost use Rattle.si_defs.specs.Generator.{exactly, ◌before◌, term, atom, sign, literal, literals, clause, leaves, rule_at};
ghost use Rattle.si_sample.specs.Sampling.{Draws, DrawsOnto};

use itoa::Buffer;
use std::alloc::{AllocError, Global};

/// The terms of an atom have at most this depth.
const DEPTH: u32 = 2;

/// The variables and the constants.
const LEAVES: [u8; 4] = *b"XYab";

/// A generator, and what was drawn so far.
#[derive(Drop)]
pub struct Sampler {
    state: u32,
    text: Vec<u8>,
}

impl Sampler {
    /// Nothing is drawn yet.
    pub fn new(alloc: Global, start: u32) -> Sampler
        ensures state { result.state ≡ start }
        ensures text { result.text.items ≡ [] }
    {
        Sampler {
            state: start,
            text: Vec::new(alloc),
        }
    }

    /// What was drawn.
    pub fn into_text(self) -> Vec<u8>
        ensures { result.items ≡ self.text.items }
    {
        self.text
    }

    /// Draws the line of the clause with this number.
    pub fn clause(&mut self, number: u32) -> Result<(), AllocError>
        ensures { OnOk result (DrawsOnto (clause number) self.old self.new) }
    {
        let mut buffer = Buffer::new();
        self.put(b"cnf(s")?;
        self.put(buffer.format(number).as_bytes())?;
        self.put(b",axiom,")?;
        self.literals()?;
        self.put(b").\n")
    }

    fn literals(&mut self) -> Result<(), AllocError>
        ensures { OnOk result (DrawsOnto literals self.old self.new) }
    {
        match self.draw(2) {
            0 => self.literal(),
            _ => {
                self.literal()?;
                self.put(b"|")?;
                self.literal()
            }
        }
    }

    fn literal(&mut self) -> Result<(), AllocError>
        ensures { OnOk result (DrawsOnto literal self.old self.new) }
    {
        self.sign()?;
        self.atom()
    }

    fn sign(&mut self) -> Result<(), AllocError>
        ensures { OnOk result (DrawsOnto sign self.old self.new) }
    {
        match self.draw(2) {
            0 => Ok(()),
            _ => self.put(b"~"),
        }
    }

    fn atom(&mut self) -> Result<(), AllocError>
        ensures { OnOk result (DrawsOnto atom self.old self.new) }
    {
        match self.draw(2) {
            0 => self.binary(b"p(", DEPTH),
            _ => self.unary(b"q(", DEPTH),
        }
    }

    /// Draws a term of at most this depth.
    #[cycle(terms)]
    fn term(&mut self, depth: u32) -> Result<(), AllocError>
        ensures { OnOk result (DrawsOnto (term depth) self.old self.new) }
    {
        if depth == 0 {
            let number = self.draw(4);
            return self.leaf(number);
        }
        match self.draw(6) {
            4 => self.unary(b"g(", depth - 1),
            5 => self.binary(b"f(", depth - 1),
            number => self.leaf(number),
        }
    }

    /// Draws a term after a symbol and its bracket, and closes the bracket.
    #[cycle(terms)]
    fn unary(&mut self, head: &[u8], depth: u32) -> Result<(), AllocError>
        ensures { OnOk result (DrawsOnto
            (exactly head.now before term depth before exactly (codes ")")) self.old self.new) }
    {
        self.put(head)?;
        self.term(depth)?;
        self.put(b")")
    }

    /// Draws two terms after a symbol and its bracket, and closes the bracket.
    #[cycle(terms)]
    fn binary(&mut self, head: &[u8], depth: u32) -> Result<(), AllocError>
        ensures { OnOk result (DrawsOnto
            (exactly head.now before term depth before exactly (codes ",") before term depth
            before exactly (codes ")")) self.old self.new) }
    {
        self.put(head)?;
        self.term(depth)?;
        self.put(b",")?;
        self.term(depth)?;
        self.put(b")")
    }

    /// Writes the variable or the constant with this number.
    fn leaf(&mut self, number: u32) -> Result<(), AllocError>
        requires { number < 4 }
        ensures { OnOk result (DrawsOnto (rule_at leaves number) self.old self.new) }
    {
        self.put(&[LEAVES[number as usize]])
    }

    /// Writes the bytes after what was drawn.
    fn put(&mut self, bytes: &[u8]) -> Result<(), AllocError>
        ensures { OnOk result (DrawsOnto (exactly bytes.now) self.old self.new) }
    {
        self.text.extend_from_slice(bytes)
    }

    /// Draws a number below the bound.
    fn draw(&mut self, bound: u32) -> u32
        requires { 0 < bound }
        ensures drawn { Draws bound result self.old self.new }
        ensures below { result < bound }
    {
        let product = 1_103_515_245 * u64::from(self.state) + 12_345;
        self.state = (product % 2_147_483_648) as u32;
        self.state / 65_536 % bound
    }
}
