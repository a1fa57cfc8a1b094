//! The values that a front end is told and asked for, with the codes that registers give them.
//! Plain values: nothing here is switched.
ghost use Rattle.std.specs.Prelude.{◌≡◌};
ghost use Rattle.front_end.specs.Codes.{termination_code, termination_at, rp_code, rp_at, terminations_of, role_bits};
ghost use Rattle.front_end.specs.Meaning.{sinking, sourcing};

/// What a CC pin carries.
#[derive(Clone, Copy, Debug, PartialEq, Eq)]
pub enum Termination {
    Ra = 0,
    Rp = 1,
    Rd = 2,
    Open = 3,
}

impl From<Termination> for u8 {
    ghost from_gives = { λ termination code. code ≡ termination_code termination };

    fn from(termination: Termination) -> u8 {
        termination as u8
    }
}

/// By the low two bits.
impl From<u8> for Termination {
    ghost from_gives = { λ bits termination. termination ≡ termination_at bits };

    fn from(bits: u8) -> Termination {
        match bits % 4 {
            0 => Termination::Ra,
            1 => Termination::Rp,
            2 => Termination::Rd,
            _ => Termination::Open,
        }
    }
}

/// The current that an Rp advertises.
#[derive(Clone, Copy, Debug, PartialEq, Eq)]
pub enum RpValue {
    Default = 0,
    Medium = 1,
    High = 2,
    Reserved = 3,
}

impl From<RpValue> for u8 {
    ghost from_gives = { λ rp code. code ≡ rp_code rp };

    fn from(rp: RpValue) -> u8 {
        rp as u8
    }
}

/// By the low two bits.
impl From<u8> for RpValue {
    ghost from_gives = { λ bits rp. rp ≡ rp_at bits };

    fn from(bits: u8) -> RpValue {
        match bits % 4 {
            0 => RpValue::Default,
            1 => RpValue::Medium,
            2 => RpValue::High,
            _ => RpValue::Reserved,
        }
    }
}

#[derive(Clone, Copy, Debug, PartialEq, Eq)]
pub struct Terminations {
    pub cc1: Termination,
    pub cc2: Termination,
    pub rp: RpValue,
}

impl Terminations {
    /// Both pins open, Rp value 0: nothing is presented.
    pub const OPEN: Terminations = Terminations {
        cc1: Termination::Open,
        cc2: Termination::Open,
        rp: RpValue::Default,
    };
}

/// As ROLE_CONTROL has them: CC1 in bits 1..0, CC2 in bits 3..2, the Rp value in bits 5..4.
impl From<u8> for Terminations {
    ghost from_gives = { λ bits terminations. terminations ≡ terminations_of bits };

    fn from(bits: u8) -> Terminations {
        Terminations {
            cc1: bits.into(),
            cc2: (bits >> 2).into(),
            rp: (bits >> 4).into(),
        }
    }
}

impl From<Terminations> for u8 {
    ghost from_gives = { λ terminations bits. bits ≡ role_bits terminations };

    fn from(terminations: Terminations) -> u8 {
        let Terminations { cc1, cc2, rp } = terminations;
        u8::from(cc1) + (u8::from(cc2) << 2) + (u8::from(rp) << 4)
    }
}

/// The CC pin that VCONN is switched to.
#[derive(Clone, Copy, Debug, PartialEq, Eq)]
pub enum Vconn {
    Off,
    Cc1,
    Cc2,
}

/// How VBUS is switched.
#[derive(Clone, Copy, Debug, PartialEq, Eq)]
pub enum Path {
    Off,
    Sink,
    DefaultSource,
    NondefaultSource,
}

impl Path {
    pub fn is_sinking(self) -> bool
        ensures { result ≡ sinking self }
    {
        self == Path::Sink
    }

    pub fn is_sourcing(self) -> bool
        ensures { result ≡ sourcing self }
    {
        matches!(self, Path::DefaultSource | Path::NondefaultSource)
    }
}

/// What a kind of front end can switch, once and for all.
#[derive(Clone, Copy, Debug, PartialEq, Eq)]
pub struct Capabilities {
    pub default_source: bool,
    pub nondefault_source: bool,
    pub sink: bool,
    pub vconn: bool,
}
