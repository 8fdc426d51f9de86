//! Laws of the definition of tokens.

ghost use Rattle.std.specs.Prelude.{◌≡◌, ℕ, List, Result};
ghost use Rattle.awk_tokens.specs.declared.token.TokenFault.{TokenFault};
ghost use Rattle.awk_tokens.specs.declared.token.TokenKind.{TokenKind};
ghost use Rattle.awk_tokens.specs.Cutting.{Spelled, IsTokens, divides, drops};
ghost use Rattle.awk_tokens.specs.Kinds.{context, kinds_divide, kinds_drop};

/// A script has at most one list of tokens or one refusal, and never both.
pub fn one_token_list()
    ensures { (script : List ℕ) (a b : Result (List Spelled) TokenFault) → IsTokens script a
        → IsTokens script b → a ≡ b }
{}

/// Every script has a list of tokens or a refusal.
pub fn some_token_list()
    ensures { (script : List ℕ) → (found : Result (List Spelled) TokenFault)
        × IsTokens script found }
{}

/// The kinds of all tokens before a place say whether a slash divides there and a newline is dropped.
pub fn kinds_before_decide()
    ensures slash { (kinds : List TokenKind) → divides (context kinds) ≡ kinds_divide kinds }
    ensures newline { (kinds : List TokenKind) → drops (context kinds) ≡ kinds_drop kinds }
{}
