//! Pieces of lines: tokens, and arguments in the place of tokens.
ghost use Rattle.std.specs.Prelude.{◌≡◌, ◌++◌, ◌∷◌, ◌-◌, ◌<◌, [], length, get_or, map, take, IfOk, OnOk};
ghost use Rattle.qpu_token.specs.declared.token.Token.{Token};
ghost use Rattle.qpu_expr.specs.Macros.{placed_at};
ghost use Rattle.qpu_expr.specs.Pieces.{joined};

use qpu_token::Token;
use std::alloc::{AllocError, Global};
use std::marker::Model;
use std::rc::Rc;

/// An argument of a call. All lines that have it share its tokens.
#[derive(Drop)]
pub(crate) struct Argument {
    tokens: Rc<Vec<Token>>,
}

impl Model for Argument {
    ghost use Rattle.std.specs.Prelude.{List};
    ghost use Rattle.qpu_token.specs.declared.token.Token.{Token};

    ghost Value = { List Token };

    ghost view = { λ a. a.tokens.value.items };
}

impl Argument {
    /// An argument of tokens.
    pub(crate) fn new(alloc: Global, tokens: Vec<Token>) -> Result<Argument, AllocError>
        ensures { IfOk result (λ argument. argument ≡ tokens.items) }
    {
        let tokens = Rc::new(alloc, tokens)?;
        Ok(Argument { tokens })
    }

    /// The tokens.
    pub(crate) fn tokens(&self) -> &[Token]
        ensures { result.now ≡ self.now }
    {
        &**self.tokens
    }

    /// The same argument, with the same tokens.
    fn share(&self) -> Result<Argument, AllocError>
        ensures { IfOk result (λ argument. argument ≡ self.now) }
    {
        let tokens = self.tokens.clone()?;
        Ok(Argument { tokens })
    }
}

/// A token, or an argument in its place. Contracts see the tokens that this shows.
#[derive(Drop)]
pub(crate) struct Piece {
    token: Token,
    argument: Option<Argument>,
}

impl Model for Piece {
    ghost use Rattle.std.specs.Prelude.{List};
    ghost use Rattle.qpu_token.specs.declared.token.Token.{Token};
    ghost use Rattle.qpu_expr.specs.Pieces.{shown};

    ghost Value = { List Token };

    ghost view = { λ p. shown p.token p.argument };
}

/// A token at the place of another.
pub(crate) fn placed(at: Token, token: Token) -> Token
    ensures { result ≡ placed_at at token }
{
    Token {
        line: at.line,
        column: at.column,
        ..token
    }
}

/// Puts tokens at the place of another.
fn put_placed(at: Token, tokens: &[Token], out: &mut Vec<Token>) -> Result<(), AllocError>
    ensures { OnOk result (out.new.items ≡ out.old.items ++ map (placed_at at) tokens.now) }
{
    for token in tokens {
        out.push(placed(at, *token))?;
    }
    Ok(())
}

/// The first of tokens, so many as there are.
fn front_of(tokens: &[Token], most: usize) -> &[Token]
    ensures { result.now ≡ take most tokens.now }
{
    &tokens[..most.min(tokens.len())]
}

impl Piece {
    /// A token.
    pub(crate) fn of_token(token: Token) -> Piece
        ensures { result ≡ token ∷ [] }
    {
        Piece {
            token,
            argument: None,
        }
    }

    /// An argument in the place of a token.
    pub(crate) fn of_argument(at: Token, argument: &Argument) -> Result<Piece, AllocError>
        ensures { IfOk result (λ piece. piece ≡ map (placed_at at) argument.now) }
    {
        let argument = argument.share()?;
        Ok(Piece {
            token: at,
            argument: Some(argument),
        })
    }

    /// How many tokens it shows.
    pub(crate) fn len(&self) -> usize
        ensures { result ≡ length self.now }
    {
        match &self.argument {
            Some(argument) => argument.tokens().len(),
            None => 1,
        }
    }

    /// The token that it shows at an index.
    pub(crate) fn token(&self, i: usize) -> Token
        requires { i < length self.now }
        ensures { (d : Token) → result ≡ get_or self.now i d }
    {
        match &self.argument {
            Some(argument) => placed(self.token, argument.tokens()[i]),
            None => self.token,
        }
    }

    /// The same piece.
    pub(crate) fn share(&self) -> Result<Piece, AllocError>
        ensures { IfOk result (λ piece. piece ≡ self.now) }
    {
        match &self.argument {
            Some(argument) => Piece::of_argument(self.token, argument),
            None => Ok(Piece::of_token(self.token)),
        }
    }

    /// Puts its first tokens, until there are so many.
    #[tactic(auto, using(crate::proofs::PieceLemmas::placed_front))]
    pub(crate) fn put_front(&self, most: usize, out: &mut Vec<Token>) -> Result<(), AllocError>
        ensures { OnOk result (out.new.items ≡ out.old.items ++ take (most - length out.old.items) self.now) }
    {
        let room = most.saturating_sub(out.len());
        match &self.argument {
            Some(argument) => put_placed(self.token, front_of(argument.tokens(), room), out),
            None => {
                if room > 0 {
                    out.push(self.token)?;
                }
                Ok(())
            }
        }
    }
}

/// The same pieces.
pub(crate) fn share_all(alloc: Global, pieces: &[Piece]) -> Result<Vec<Piece>, AllocError>
    ensures { IfOk result (λ same. same.items ≡ pieces.now) }
{
    let mut same = Vec::new(alloc);
    for piece in pieces {
        same.push(piece.share()?)?;
    }
    Ok(same)
}

/// Reads the first tokens of pieces, so many as there are.
#[tactic(auto, using(crate::proofs::PieceLemmas::front_full))]
pub(crate) fn read_front(
    pieces: &[Piece],
    most: usize,
    tokens: &mut Vec<Token>,
) -> Result<(), AllocError>
    ensures { OnOk result (tokens.new.items ≡ take most (joined pieces.now)) }
{
    tokens.clear();
    for piece in pieces {
        if tokens.len() >= most {
            return Ok(());
        }
        piece.put_front(most, tokens)?;
    }
    Ok(())
}
