//! The table of routes.
ghost use Rattle.std.specs.Prelude.{◌≡◌};
ghost use Rattle.vault_routes.specs.Table.{action_at, methods_of, template_text};

/// What a message asks for of one token.
#[derive(Clone, Copy, PartialEq, Eq)]
pub enum TokenAction {
    View,
    Detokenize,
    Revoke,
    Purge,
}

/// What a message asks for at a place.
#[derive(Clone, Copy, PartialEq, Eq)]
pub enum Action {
    Tokenize,
    OnToken(TokenAction),
    Audit,
}

/// What the template of a target stands for.
#[derive(Clone, Copy, PartialEq, Eq)]
pub enum Place {
    /// The tokens of a merchant.
    Tokens,
    /// One token.
    Token,
    /// The card number that a token stands for.
    Number,
    /// The end of a token's life.
    Revoke,
    /// A merchant's counts.
    Audit,
}

/// The places of the service.
pub(crate) const PLACES: [Place; 5] = [
    Place::Tokens,
    Place::Token,
    Place::Number,
    Place::Revoke,
    Place::Audit,
];

impl Place {
    // The template, with `{m}` for a merchant and `{t}` for a token.
    pub(crate) fn template(self) -> &'static str
        // it is the place's template as `matchit` reads it
        ensures { result.now ≡ template_text self }
    {
        match self {
            Place::Tokens => "/v1/merchants/{m}/tokens",
            Place::Token => "/v1/merchants/{m}/tokens/{t}",
            Place::Number => "/v1/merchants/{m}/tokens/{t}/number",
            Place::Revoke => "/v1/merchants/{m}/tokens/{t}/revoke",
            Place::Audit => "/v1/merchants/{m}/audit",
        }
    }

    /// The methods that the targets of the place take, as the text of an Allow field.
    pub fn methods(self) -> &'static str
        ensures { result.now ≡ methods_of self }
    {
        match self {
            Place::Tokens | Place::Number | Place::Revoke => "POST",
            Place::Token => "GET, DELETE",
            Place::Audit => "GET",
        }
    }

    /// What a method asks for at the place; nothing, where the place doesn't take it.
    pub fn action(self, method: &[u8]) -> Option<Action>
        ensures { result ≡ action_at self method.now }
    {
        match (self, method) {
            (Place::Tokens, b"POST") => Some(Action::Tokenize),
            (Place::Token, b"GET") => Some(Action::OnToken(TokenAction::View)),
            (Place::Token, b"DELETE") => Some(Action::OnToken(TokenAction::Purge)),
            (Place::Number, b"POST") => Some(Action::OnToken(TokenAction::Detokenize)),
            (Place::Revoke, b"POST") => Some(Action::OnToken(TokenAction::Revoke)),
            (Place::Audit, b"GET") => Some(Action::Audit),
            _ => None,
        }
    }
}
