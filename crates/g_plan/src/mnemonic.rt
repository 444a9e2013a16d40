//! The names of orders, and what may follow each.
ghost use Rattle.std.specs.Prelude.{◌≡◌};
ghost use Rattle.g_plan.specs.Table as table;

/// The name of an order of the table (`docs/MANUAL.md`, "Sources").
#[derive(Clone, Copy, PartialEq, Eq)]
pub enum Mnemonic {
    Ldx,
    Adx,
    Ngx,
    Sbx,
    Sto,
    Ads,
    Ngs,
    Sbs,
    Andx,
    Orx,
    Erx,
    Ldch,
    Ands,
    Ors,
    Ers,
    Dch,
    Mpy,
    Ldn,
    Adn,
    Ngn,
    Sbn,
    Andn,
    Orn,
    Ern,
    Move,
    Stoz,
    Peri,
    Susty,
    Disty,
    Delty,
    Null,
    Bze,
    Bnz,
    Bpz,
    Bng,
    Call,
    Exit,
    Brn,
    Bvs,
    Bvsr,
    Bvc,
    Bvcr,
    Slc,
    Sll,
    Src,
    Srl,
}

/// The names in the order of the table.
const MNEMONICS: [Mnemonic; 46] = [
    Mnemonic::Ldx,
    Mnemonic::Adx,
    Mnemonic::Ngx,
    Mnemonic::Sbx,
    Mnemonic::Sto,
    Mnemonic::Ads,
    Mnemonic::Ngs,
    Mnemonic::Sbs,
    Mnemonic::Andx,
    Mnemonic::Orx,
    Mnemonic::Erx,
    Mnemonic::Ldch,
    Mnemonic::Ands,
    Mnemonic::Ors,
    Mnemonic::Ers,
    Mnemonic::Dch,
    Mnemonic::Mpy,
    Mnemonic::Ldn,
    Mnemonic::Adn,
    Mnemonic::Ngn,
    Mnemonic::Sbn,
    Mnemonic::Andn,
    Mnemonic::Orn,
    Mnemonic::Ern,
    Mnemonic::Move,
    Mnemonic::Stoz,
    Mnemonic::Peri,
    Mnemonic::Susty,
    Mnemonic::Disty,
    Mnemonic::Delty,
    Mnemonic::Null,
    Mnemonic::Bze,
    Mnemonic::Bnz,
    Mnemonic::Bpz,
    Mnemonic::Bng,
    Mnemonic::Call,
    Mnemonic::Exit,
    Mnemonic::Brn,
    Mnemonic::Bvs,
    Mnemonic::Bvsr,
    Mnemonic::Bvc,
    Mnemonic::Bvcr,
    Mnemonic::Slc,
    Mnemonic::Sll,
    Mnemonic::Src,
    Mnemonic::Srl,
];

/// The row of a name in the table.
#[derive(Clone, Copy, PartialEq, Eq)]
pub struct Row {
    /// The accumulator of its orders, where it isn't written.
    pub x: Option<u8>,
    /// The function number of its orders.
    pub f: u8,
    /// What is added to the address.
    pub adds: u16,
    /// The greatest address; `None` if there is no address.
    pub most: Option<u16>,
    /// Whether a modifier may follow the address.
    pub modified: bool,
}

impl Mnemonic {
    /// The name that a word is, if it is one.
    pub fn of(word: &[u8]) -> Option<Mnemonic>
        ensures { result ≡ table.mnemonic_of word.now }
    {
        MNEMONICS.iter().copied().find(|name| name.word() == word)
    }

    /// The written name.
    pub fn word(self) -> &'static [u8]
        ensures { result.now ≡ table.name_text self }
    {
        match self {
            Mnemonic::Ldx => b"LDX",
            Mnemonic::Adx => b"ADX",
            Mnemonic::Ngx => b"NGX",
            Mnemonic::Sbx => b"SBX",
            Mnemonic::Sto => b"STO",
            Mnemonic::Ads => b"ADS",
            Mnemonic::Ngs => b"NGS",
            Mnemonic::Sbs => b"SBS",
            Mnemonic::Andx => b"ANDX",
            Mnemonic::Orx => b"ORX",
            Mnemonic::Erx => b"ERX",
            Mnemonic::Ldch => b"LDCH",
            Mnemonic::Ands => b"ANDS",
            Mnemonic::Ors => b"ORS",
            Mnemonic::Ers => b"ERS",
            Mnemonic::Dch => b"DCH",
            Mnemonic::Mpy => b"MPY",
            Mnemonic::Ldn => b"LDN",
            Mnemonic::Adn => b"ADN",
            Mnemonic::Ngn => b"NGN",
            Mnemonic::Sbn => b"SBN",
            Mnemonic::Andn => b"ANDN",
            Mnemonic::Orn => b"ORN",
            Mnemonic::Ern => b"ERN",
            Mnemonic::Move => b"MOVE",
            Mnemonic::Stoz => b"STOZ",
            Mnemonic::Peri => b"PERI",
            Mnemonic::Susty => b"SUSTY",
            Mnemonic::Disty => b"DISTY",
            Mnemonic::Delty => b"DELTY",
            Mnemonic::Null => b"NULL",
            Mnemonic::Bze => b"BZE",
            Mnemonic::Bnz => b"BNZ",
            Mnemonic::Bpz => b"BPZ",
            Mnemonic::Bng => b"BNG",
            Mnemonic::Call => b"CALL",
            Mnemonic::Exit => b"EXIT",
            Mnemonic::Brn => b"BRN",
            Mnemonic::Bvs => b"BVS",
            Mnemonic::Bvsr => b"BVSR",
            Mnemonic::Bvc => b"BVC",
            Mnemonic::Bvcr => b"BVCR",
            Mnemonic::Slc => b"SLC",
            Mnemonic::Sll => b"SLL",
            Mnemonic::Src => b"SRC",
            Mnemonic::Srl => b"SRL",
        }
    }

    /// The row of the name in the table.
    pub fn row(self) -> Row
        ensures { result ≡ table.row_of self }
    {
        match self {
            Mnemonic::Ldx => plain(0o000),
            Mnemonic::Adx => plain(0o001),
            Mnemonic::Ngx => plain(0o002),
            Mnemonic::Sbx => plain(0o003),
            Mnemonic::Sto => plain(0o010),
            Mnemonic::Ads => plain(0o011),
            Mnemonic::Ngs => plain(0o012),
            Mnemonic::Sbs => plain(0o013),
            Mnemonic::Andx => plain(0o020),
            Mnemonic::Orx => plain(0o021),
            Mnemonic::Erx => plain(0o022),
            Mnemonic::Ldch => plain(0o024),
            Mnemonic::Ands => plain(0o030),
            Mnemonic::Ors => plain(0o031),
            Mnemonic::Ers => plain(0o032),
            Mnemonic::Dch => plain(0o034),
            Mnemonic::Mpy => plain(0o040),
            Mnemonic::Ldn => plain(0o100),
            Mnemonic::Adn => plain(0o101),
            Mnemonic::Ngn => plain(0o102),
            Mnemonic::Sbn => plain(0o103),
            Mnemonic::Andn => plain(0o120),
            Mnemonic::Orn => plain(0o121),
            Mnemonic::Ern => plain(0o122),
            Mnemonic::Move => plain(0o126),
            Mnemonic::Stoz => of_x(0, 0o033),
            Mnemonic::Peri => of_x(0, 0o157),
            Mnemonic::Susty => of_x(0, 0o160),
            Mnemonic::Disty => of_x(1, 0o160),
            Mnemonic::Delty => of_x(2, 0o160),
            Mnemonic::Null => alone(0o123),
            Mnemonic::Bze => jump(0o050),
            Mnemonic::Bnz => jump(0o052),
            Mnemonic::Bpz => jump(0o054),
            Mnemonic::Bng => jump(0o056),
            Mnemonic::Call => jump(0o070),
            Mnemonic::Exit => jump(0o072),
            Mnemonic::Brn => jump_of_x(0),
            Mnemonic::Bvs => jump_of_x(1),
            Mnemonic::Bvsr => jump_of_x(2),
            Mnemonic::Bvc => jump_of_x(3),
            Mnemonic::Bvcr => jump_of_x(4),
            Mnemonic::Slc => shift(0o110, 0),
            Mnemonic::Sll => shift(0o110, 1024),
            Mnemonic::Src => shift(0o112, 0),
            Mnemonic::Srl => shift(0o112, 1024),
        }
    }
}

/// `NAME x a`, `NAME x a(m)`.
fn plain(f: u8) -> Row
    ensures { result ≡ table.plain f }
{
    Row {
        x: None,
        f,
        adds: 0,
        most: Some(4095),
        modified: true,
    }
}

/// `NAME a`, `NAME a(m)`.
fn of_x(x: u8, f: u8) -> Row
    ensures { result ≡ table.of_x x f }
{
    Row {
        x: Some(x),
        f,
        adds: 0,
        most: Some(4095),
        modified: true,
    }
}

/// `NAME`.
fn alone(f: u8) -> Row
    ensures { result ≡ table.alone f }
{
    Row {
        x: Some(0),
        f,
        adds: 0,
        most: None,
        modified: false,
    }
}

/// The branch `NAME x a`.
fn jump(f: u8) -> Row
    ensures { result ≡ table.jump f }
{
    Row {
        x: None,
        f,
        adds: 0,
        most: Some(32767),
        modified: false,
    }
}

/// The branch `NAME a`.
fn jump_of_x(x: u8) -> Row
    ensures { result ≡ table.jump_of_x x }
{
    Row {
        x: Some(x),
        f: 0o074,
        adds: 0,
        most: Some(32767),
        modified: false,
    }
}

/// A shift by a count, circular or logical.
fn shift(f: u8, adds: u16) -> Row
    ensures { result ≡ table.shift f adds }
{
    Row {
        x: None,
        f,
        adds,
        most: Some(1023),
        modified: true,
    }
}
