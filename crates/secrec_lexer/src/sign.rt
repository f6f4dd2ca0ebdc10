/// A sign or a keyword.
#[derive(Clone, Copy)]
pub enum Sign {
    /// `(`
    LeftParenthesis,
    /// `)`
    RightParenthesis,
    /// `[`
    LeftBracket,
    /// `]`
    RightBracket,
    /// `{`
    LeftBrace,
    /// `}`
    RightBrace,
    /// `<`
    Less,
    /// `>`
    Greater,
    /// `,`
    Comma,
    /// `;`
    Semicolon,
    /// `:`
    Colon,
    /// `=`
    Assign,
    /// `+`
    Plus,
    /// `-`
    Minus,
    /// `*`
    Star,
    /// `/`
    Slash,
    /// `%`
    Percent,
    /// `&`
    Ampersand,
    /// `|`
    Bar,
    /// `^`
    Caret,
    /// `!`
    Exclamation,
    /// `==`
    Equal,
    /// `!=`
    NotEqual,
    /// `<=`
    LessOrEqual,
    /// `>=`
    GreaterOrEqual,
    /// `&&`
    DoubleAmpersand,
    /// `||`
    DoubleBar,
    /// `+=`
    PlusAssign,
    /// `-=`
    MinusAssign,
    /// `*=`
    StarAssign,
    /// `&=`
    AmpersandAssign,
    /// `|=`
    BarAssign,
    /// `^=`
    CaretAssign,
    /// `++`
    Increment,
    /// `--`
    Decrement,
    /// `import`
    Import,
    /// `kind`
    Kind,
    /// `domain`
    Domain,
    /// `template`
    Template,
    /// `public`
    Public,
    /// `void`
    Void,
    /// `uint64`
    Uint64,
    /// `uint`
    Uint,
    /// `int64`
    Int64,
    /// `int`
    Int,
    /// `bool`
    Bool,
    /// `if`
    If,
    /// `else`
    Else,
    /// `while`
    While,
    /// `do`
    Do,
    /// `for`
    For,
    /// `break`
    Break,
    /// `continue`
    Continue,
    /// `return`
    Return,
    /// `assert`
    Assert,
    /// `true`
    True,
    /// `false`
    False,
    /// `argument`
    Argument,
    /// `publish`
    Publish,
    /// `declassify`
    Declassify,
}
