//! What the tokens before a place say.

ghost use Rattle.std.specs.Prelude.{◌≡◌, IfOk};
ghost use Rattle.awk_tokens.specs.Cutting.{start, opens_after, after, divides, drops};
ghost use Rattle.awk_tokens.specs.State.{context_of};

use crate::reserved_words::{Builtin, Keyword};
use crate::token::{Punctuator, Role, TokenKind};
use std::alloc::{AllocError, Global};

/// The last two tokens, what the last `)` closed, and what each open `(` was opened for.
#[derive(Drop)]
pub(crate) struct Before {
    pub(crate) last: Option<TokenKind>,
    pub(crate) former: Option<TokenKind>,
    pub(crate) closed: Role,
    pub(crate) open: Vec<Role>,
}

fn role(last: Option<TokenKind>, former: Option<TokenKind>) -> Role
    ensures { result ≡ opens_after last former }
{
    match (last, former) {
        (Some(TokenKind::Keyword(Keyword::If | Keyword::While | Keyword::For)), _) => Role::Control,
        (
            Some(TokenKind::Name | TokenKind::FuncName),
            Some(TokenKind::Keyword(Keyword::Function)),
        ) => Role::Params,
        _ => Role::Plain,
    }
}

impl Before {
    pub(crate) fn new(alloc: Global) -> Before
        ensures { context_of result ≡ start }
    {
        Before {
            last: None,
            former: None,
            closed: Role::Plain,
            open: Vec::new(alloc),
        }
    }

    /// Whether a slash here divides.
    pub(crate) fn divides(&self) -> bool
        ensures { result ≡ divides (context_of self.now) }
    {
        match self.last {
            Some(
                TokenKind::Number
                | TokenKind::Str
                | TokenKind::Ere
                | TokenKind::Name
                | TokenKind::Builtin(Builtin::Length)
                | TokenKind::Keyword(Keyword::Getline)
                | TokenKind::Punctuator(
                    Punctuator::CloseBracket | Punctuator::Increment | Punctuator::Decrement,
                ),
            ) => true,
            Some(TokenKind::Punctuator(Punctuator::CloseParen)) => {
                !matches!(self.closed, Role::Control)
            }
            _ => false,
        }
    }

    /// Whether a newline here is dropped.
    pub(crate) fn drops(&self) -> bool
        ensures { result ≡ drops (context_of self.now) }
    {
        match self.last {
            None => true,
            Some(
                TokenKind::Punctuator(
                    Punctuator::Semicolon
                    | Punctuator::OpenBrace
                    | Punctuator::CloseBrace
                    | Punctuator::And
                    | Punctuator::Or
                    | Punctuator::Comma,
                )
                | TokenKind::Keyword(Keyword::Do | Keyword::Else),
            ) => true,
            Some(TokenKind::Punctuator(Punctuator::CloseParen)) => {
                !matches!(self.closed, Role::Plain)
            }
            _ => false,
        }
    }

    /// Goes on after a token of this kind.
    pub(crate) fn push(&mut self, kind: TokenKind) -> Result<(), AllocError>
        ensures { IfOk result (λ _. context_of self.new ≡ after (context_of self.old) kind) }
    {
        let opened = role(self.last, self.former);
        self.former = self.last;
        self.last = Some(kind);
        self.closed = Role::Plain;
        match kind {
            TokenKind::Punctuator(Punctuator::OpenParen) => {
                self.open.push(opened)?;
                Ok(())
            }
            TokenKind::Punctuator(Punctuator::CloseParen) => match self.open.pop() {
                Some(role) => {
                    self.closed = role;
                    Ok(())
                }
                None => Ok(()),
            },
            _ => Ok(()),
        }
    }
}
