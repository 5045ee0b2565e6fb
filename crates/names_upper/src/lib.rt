// Made by tools/make_names.py from the entries of crates/rules/specs/Names.antt; not to be edited.
// The names that begin with A to Z, a function for each letter, and in it groups by the second byte, or by the second and the fourth. Each group
// is a table: the names one after the other without their first letter, the length of each, and the numbers of their values (`code_bytes` in
// crates/names_search/specs/Lent.antt).
// A function for each group, as each has a contract of its own, proved by computing; the work of all is `Table::find`.
#![tactic(auto)]

ghost use Rattle.std.specs.Prelude.{◌≡◌, ◌∷◌};
ghost use Rattle.rules.specs.Names.{upper-A, upper-B, upper-C, upper-D, upper-E, upper-F, upper-G, upper-H, upper-I, upper-J, upper-K, upper-L, upper-M, upper-N, upper-O, upper-P, upper-Q, upper-R, upper-S, upper-T, upper-U, upper-V, upper-W, upper-X, upper-Y, upper-Z};
ghost use Rattle.rules.specs.References.{lookup};
ghost use Rattle.rules.specs.Answers.{meaning_bytes};
ghost use Rattle.names_search.specs.Having.{having};

use names_search::Table;
use rules::DecodedEntityValue;

const UPPER_A: Table<'static> = Table {
    names: b"\
        EligMPacutebrevecirccyfrgravelphamacrndogonopfpplyFunctionringscrssigntildeuml",
    lengths: &[4, 2, 5, 5, 4, 2, 2, 5, 4, 4, 2, 4, 3, 12, 4, 3, 5, 5, 3],
    values: &[
        0x00C6, // AElig
        0x0026, // AMP
        0x00C1, // Aacute
        0x0102, // Abreve
        0x00C2, // Acirc
        0x0410, // Acy
        0xE104, // Afr
        0x00C0, // Agrave
        0x0391, // Alpha
        0x0100, // Amacr
        0x2A53, // And
        0x0104, // Aogon
        0xE138, // Aopf
        0x2061, // ApplyFunction
        0x00C5, // Aring
        0xE09C, // Ascr
        0x2254, // Assign
        0x00C3, // Atilde
        0x00C4, // Auml
    ],
};

// What `A` and `rest` stand for.
pub fn upper_a(rest: &[u8]) -> Option<DecodedEntityValue>
    ensures { meaning_bytes result ≡ lookup upper-A (0x41 ∷ rest.now) }
{
    UPPER_A.find(rest)
}

const UPPER_B: Table<'static> = Table {
    names: b"\
        ackslasharvarwedcyecauseernoullisetafropfrevescrumpeq",
    lengths: &[8, 3, 5, 2, 6, 9, 3, 2, 3, 4, 3, 5],
    values: &[
        0x2216, // Backslash
        0x2AE7, // Barv
        0x2306, // Barwed
        0x0411, // Bcy
        0x2235, // Because
        0x212C, // Bernoullis
        0x0392, // Beta
        0xE105, // Bfr
        0xE139, // Bopf
        0x02D8, // Breve
        0x212C, // Bscr
        0x224E, // Bumpeq
    ],
};

// What `B` and `rest` stand for.
pub fn upper_b(rest: &[u8]) -> Option<DecodedEntityValue>
    ensures { meaning_bytes result ≡ lookup upper-B (0x42 ∷ rest.now) }
{
    UPPER_B.find(rest)
}

const UPPER_C_1: Table<'static> = Table {
    names: b"\
        HcyOPYacuteapapitalDifferentialDayleyscaroncedilcircconintdotedillaenterDotfrhiircleDotircleMinusirclePlus\
        ircleTimeslockwiseContourIntegralloseCurlyDoubleQuoteloseCurlyQuoteolonoloneongruentonintontourIntegralopf\
        oproductounterClockwiseContourIntegralrossscr",
    lengths: &[
        3, 3, 5, 2, 19, 6, 5, 5, 4, 6, 3, 6, 8, 2, 2, 8, 10, 9, 10, 23, 20, 14, 4, 5, 8, 5, 14, 3,
        8, 30, 4, 3,
    ],
    values: &[
        0x0427, // CHcy
        0x00A9, // COPY
        0x0106, // Cacute
        0x22D2, // Cap
        0x2145, // CapitalDifferentialD
        0x212D, // Cayleys
        0x010C, // Ccaron
        0x00C7, // Ccedil
        0x0108, // Ccirc
        0x2230, // Cconint
        0x010A, // Cdot
        0x00B8, // Cedilla
        0x00B7, // CenterDot
        0x212D, // Cfr
        0x03A7, // Chi
        0x2299, // CircleDot
        0x2296, // CircleMinus
        0x2295, // CirclePlus
        0x2297, // CircleTimes
        0x2232, // ClockwiseContourIntegral
        0x201D, // CloseCurlyDoubleQuote
        0x2019, // CloseCurlyQuote
        0x2237, // Colon
        0x2A74, // Colone
        0x2261, // Congruent
        0x222F, // Conint
        0x222E, // ContourIntegral
        0x2102, // Copf
        0x2210, // Coproduct
        0x2233, // CounterClockwiseContourIntegral
        0x2A2F, // Cross
        0xE09E, // Cscr
    ],
};

// What `C` and `rest` stand for, where `rest` begins with a byte from 00 to 74 hex.
fn upper_c_1(rest: &[u8]) -> Option<DecodedEntityValue>
    ensures { meaning_bytes result ≡ lookup (having 1 (0x00, 0x74) upper-C) (0x43 ∷ rest.now) }
{
    UPPER_C_1.find(rest)
}

const UPPER_C_2: Table<'static> = Table {
    names: b"\
        upupCap",
    lengths: &[2, 5],
    values: &[
        0x22D3, // Cup
        0x224D, // CupCap
    ],
};

// What `C` and `rest` stand for, where `rest` begins with a byte from 75 to FF hex.
fn upper_c_2(rest: &[u8]) -> Option<DecodedEntityValue>
    ensures { meaning_bytes result ≡ lookup (having 1 (0x75, 0xFF) upper-C) (0x43 ∷ rest.now) }
{
    UPPER_C_2.find(rest)
}

// What `C` and `rest` stand for.
pub fn upper_c(rest: &[u8]) -> Option<DecodedEntityValue>
    ensures { meaning_bytes result ≡ lookup upper-C (0x43 ∷ rest.now) }
{
    let second = names_search::byte_at(rest, 0);
    if second < b'u' {
        return upper_c_1(rest);
    }
    upper_c_2(rest)
}

const UPPER_D_1: Table<'static> = Table {
    names: b"\
        DDotrahdJcyScyZcyaggerarrashvcaroncyeleltafriacriticalAcuteiacriticalDotiacriticalDoubleAcute\
        iacriticalGraveiacriticalTildeiamondifferentialD",
    lengths: &[
        1, 7, 3, 3, 3, 5, 3, 4, 5, 2, 2, 4, 2, 15, 13, 21, 15, 15, 6, 12,
    ],
    values: &[
        0x2145, // DD
        0x2911, // DDotrahd
        0x0402, // DJcy
        0x0405, // DScy
        0x040F, // DZcy
        0x2021, // Dagger
        0x21A1, // Darr
        0x2AE4, // Dashv
        0x010E, // Dcaron
        0x0414, // Dcy
        0x2207, // Del
        0x0394, // Delta
        0xE107, // Dfr
        0x00B4, // DiacriticalAcute
        0x02D9, // DiacriticalDot
        0x02DD, // DiacriticalDoubleAcute
        0x0060, // DiacriticalGrave
        0x02DC, // DiacriticalTilde
        0x22C4, // Diamond
        0x2146, // DifferentialD
    ],
};

// What `D` and `rest` stand for, where `rest` begins with a byte from 00 to 6E hex.
fn upper_d_1(rest: &[u8]) -> Option<DecodedEntityValue>
    ensures { meaning_bytes result ≡ lookup (having 1 (0x00, 0x6E) upper-D) (0x44 ∷ rest.now) }
{
    UPPER_D_1.find(rest)
}

const UPPER_D_2: Table<'static> = Table {
    names: b"\
        opfototDototEqualoubleContourIntegraloubleDotoubleDownArrowoubleLeftArrowoubleLeftRightArrowoubleLeftTee\
        oubleLongLeftArrowoubleLongLeftRightArrowoubleLongRightArrowoubleRightArrowoubleRightTeeoubleUpArrow\
        oubleUpDownArrowoubleVerticalBarownArrowownArrowBarownArrowUpArrowownBreveownLeftRightVector\
        ownLeftTeeVectorownLeftVectorownLeftVectorBarownRightTeeVectorownRightVectorownRightVectorBarownTee\
        ownTeeArrowownarrow",
    lengths: &[
        3, 2, 5, 7, 20, 8, 14, 14, 19, 12, 18, 23, 19, 15, 13, 12, 16, 16, 8, 11, 15, 8, 18, 16,
        13, 16, 17, 14, 17, 6, 11, 8,
    ],
    values: &[
        0xE13B, // Dopf
        0x00A8, // Dot
        0x20DC, // DotDot
        0x2250, // DotEqual
        0x222F, // DoubleContourIntegral
        0x00A8, // DoubleDot
        0x21D3, // DoubleDownArrow
        0x21D0, // DoubleLeftArrow
        0x21D4, // DoubleLeftRightArrow
        0x2AE4, // DoubleLeftTee
        0x27F8, // DoubleLongLeftArrow
        0x27FA, // DoubleLongLeftRightArrow
        0x27F9, // DoubleLongRightArrow
        0x21D2, // DoubleRightArrow
        0x22A8, // DoubleRightTee
        0x21D1, // DoubleUpArrow
        0x21D5, // DoubleUpDownArrow
        0x2225, // DoubleVerticalBar
        0x2193, // DownArrow
        0x2913, // DownArrowBar
        0x21F5, // DownArrowUpArrow
        0x0311, // DownBreve
        0x2950, // DownLeftRightVector
        0x295E, // DownLeftTeeVector
        0x21BD, // DownLeftVector
        0x2956, // DownLeftVectorBar
        0x295F, // DownRightTeeVector
        0x21C1, // DownRightVector
        0x2957, // DownRightVectorBar
        0x22A4, // DownTee
        0x21A7, // DownTeeArrow
        0x21D3, // Downarrow
    ],
};

// What `D` and `rest` stand for, where `rest` begins with a byte from 6F to 72 hex.
fn upper_d_2(rest: &[u8]) -> Option<DecodedEntityValue>
    ensures { meaning_bytes result ≡ lookup (having 1 (0x6F, 0x72) upper-D) (0x44 ∷ rest.now) }
{
    UPPER_D_2.find(rest)
}

const UPPER_D_3: Table<'static> = Table {
    names: b"\
        scrstrok",
    lengths: &[3, 5],
    values: &[
        0xE09F, // Dscr
        0x0110, // Dstrok
    ],
};

// What `D` and `rest` stand for, where `rest` begins with a byte from 73 to FF hex.
fn upper_d_3(rest: &[u8]) -> Option<DecodedEntityValue>
    ensures { meaning_bytes result ≡ lookup (having 1 (0x73, 0xFF) upper-D) (0x44 ∷ rest.now) }
{
    UPPER_D_3.find(rest)
}

// What `D` and `rest` stand for.
pub fn upper_d(rest: &[u8]) -> Option<DecodedEntityValue>
    ensures { meaning_bytes result ≡ lookup upper-D (0x44 ∷ rest.now) }
{
    let second = names_search::byte_at(rest, 0);
    if second < b'o' {
        return upper_d_1(rest);
    }
    if second < b's' {
        return upper_d_2(rest);
    }
    upper_d_3(rest)
}

const UPPER_E: Table<'static> = Table {
    names: b"\
        NGTHacutecaroncirccydotfrgravelementmacrmptySmallSquaremptyVerySmallSquareogonopfpsilonqualqualTilde\
        quilibriumscrsimtaumlxistsxponentialE",
    lengths: &[
        2, 2, 5, 5, 4, 2, 3, 2, 5, 6, 4, 15, 19, 4, 3, 6, 4, 9, 10, 3, 3, 2, 3, 5, 11,
    ],
    values: &[
        0x014A, // ENG
        0x00D0, // ETH
        0x00C9, // Eacute
        0x011A, // Ecaron
        0x00CA, // Ecirc
        0x042D, // Ecy
        0x0116, // Edot
        0xE108, // Efr
        0x00C8, // Egrave
        0x2208, // Element
        0x0112, // Emacr
        0x25FB, // EmptySmallSquare
        0x25AB, // EmptyVerySmallSquare
        0x0118, // Eogon
        0xE13C, // Eopf
        0x0395, // Epsilon
        0x2A75, // Equal
        0x2242, // EqualTilde
        0x21CC, // Equilibrium
        0x2130, // Escr
        0x2A73, // Esim
        0x0397, // Eta
        0x00CB, // Euml
        0x2203, // Exists
        0x2147, // ExponentialE
    ],
};

// What `E` and `rest` stand for.
pub fn upper_e(rest: &[u8]) -> Option<DecodedEntityValue>
    ensures { meaning_bytes result ≡ lookup upper-E (0x45 ∷ rest.now) }
{
    UPPER_E.find(rest)
}

const UPPER_F: Table<'static> = Table {
    names: b"\
        cyfrilledSmallSquareilledVerySmallSquareopforAllouriertrfscr",
    lengths: &[2, 2, 16, 20, 3, 5, 9, 3],
    values: &[
        0x0424, // Fcy
        0xE109, // Ffr
        0x25FC, // FilledSmallSquare
        0x25AA, // FilledVerySmallSquare
        0xE13D, // Fopf
        0x2200, // ForAll
        0x2131, // Fouriertrf
        0x2131, // Fscr
    ],
};

// What `F` and `rest` stand for.
pub fn upper_f(rest: &[u8]) -> Option<DecodedEntityValue>
    ensures { meaning_bytes result ≡ lookup upper-F (0x46 ∷ rest.now) }
{
    UPPER_F.find(rest)
}

const UPPER_G: Table<'static> = Table {
    names: b"\
        JcyTammaammadbrevecedilcirccydotfrgopfreaterEqualreaterEqualLessreaterFullEqualreaterGreaterreaterLess\
        reaterSlantEqualreaterTildescrt",
    lengths: &[
        3, 1, 4, 5, 5, 5, 4, 2, 3, 2, 1, 3, 11, 15, 15, 13, 10, 16, 11, 3, 1,
    ],
    values: &[
        0x0403, // GJcy
        0x003E, // GT
        0x0393, // Gamma
        0x03DC, // Gammad
        0x011E, // Gbreve
        0x0122, // Gcedil
        0x011C, // Gcirc
        0x0413, // Gcy
        0x0120, // Gdot
        0xE10A, // Gfr
        0x22D9, // Gg
        0xE13E, // Gopf
        0x2265, // GreaterEqual
        0x22DB, // GreaterEqualLess
        0x2267, // GreaterFullEqual
        0x2AA2, // GreaterGreater
        0x2277, // GreaterLess
        0x2A7E, // GreaterSlantEqual
        0x2273, // GreaterTilde
        0xE0A2, // Gscr
        0x226B, // Gt
    ],
};

// What `G` and `rest` stand for.
pub fn upper_g(rest: &[u8]) -> Option<DecodedEntityValue>
    ensures { meaning_bytes result ≡ lookup upper-G (0x47 ∷ rest.now) }
{
    UPPER_G.find(rest)
}

const UPPER_H: Table<'static> = Table {
    names: b"\
        ARDcyacekatcircfrilbertSpaceopforizontalLinescrstrokumpDownHumpumpEqual",
    lengths: &[5, 4, 2, 4, 2, 11, 3, 13, 3, 5, 11, 8],
    values: &[
        0x042A, // HARDcy
        0x02C7, // Hacek
        0x005E, // Hat
        0x0124, // Hcirc
        0x210C, // Hfr
        0x210B, // HilbertSpace
        0x210D, // Hopf
        0x2500, // HorizontalLine
        0x210B, // Hscr
        0x0126, // Hstrok
        0x224E, // HumpDownHump
        0x224F, // HumpEqual
    ],
};

// What `H` and `rest` stand for.
pub fn upper_h(rest: &[u8]) -> Option<DecodedEntityValue>
    ensures { meaning_bytes result ≡ lookup upper-H (0x48 ∷ rest.now) }
{
    UPPER_H.find(rest)
}

const UPPER_I: Table<'static> = Table {
    names: b"\
        EcyJligOcyacutecirccydotfrgravemmacrmaginaryImpliesntntegralntersectionnvisibleCommanvisibleTimesogonopf\
        otascrtildeukcyuml",
    lengths: &[
        3, 4, 3, 5, 4, 2, 3, 2, 5, 1, 4, 9, 6, 2, 7, 11, 13, 13, 4, 3, 3, 3, 5, 4, 3,
    ],
    values: &[
        0x0415, // IEcy
        0x0132, // IJlig
        0x0401, // IOcy
        0x00CD, // Iacute
        0x00CE, // Icirc
        0x0418, // Icy
        0x0130, // Idot
        0x2111, // Ifr
        0x00CC, // Igrave
        0x2111, // Im
        0x012A, // Imacr
        0x2148, // ImaginaryI
        0x21D2, // Implies
        0x222C, // Int
        0x222B, // Integral
        0x22C2, // Intersection
        0x2063, // InvisibleComma
        0x2062, // InvisibleTimes
        0x012E, // Iogon
        0xE140, // Iopf
        0x0399, // Iota
        0x2110, // Iscr
        0x0128, // Itilde
        0x0406, // Iukcy
        0x00CF, // Iuml
    ],
};

// What `I` and `rest` stand for.
pub fn upper_i(rest: &[u8]) -> Option<DecodedEntityValue>
    ensures { meaning_bytes result ≡ lookup upper-I (0x49 ∷ rest.now) }
{
    UPPER_I.find(rest)
}

const UPPER_J: Table<'static> = Table {
    names: b"\
        circcyfropfscrsercyukcy",
    lengths: &[4, 2, 2, 3, 3, 5, 4],
    values: &[
        0x0134, // Jcirc
        0x0419, // Jcy
        0xE10D, // Jfr
        0xE141, // Jopf
        0xE0A5, // Jscr
        0x0408, // Jsercy
        0x0404, // Jukcy
    ],
};

// What `J` and `rest` stand for.
pub fn upper_j(rest: &[u8]) -> Option<DecodedEntityValue>
    ensures { meaning_bytes result ≡ lookup upper-J (0x4A ∷ rest.now) }
{
    UPPER_J.find(rest)
}

const UPPER_K: Table<'static> = Table {
    names: b"\
        HcyJcyappacedilcyfropfscr",
    lengths: &[3, 3, 4, 5, 2, 2, 3, 3],
    values: &[
        0x0425, // KHcy
        0x040C, // KJcy
        0x039A, // Kappa
        0x0136, // Kcedil
        0x041A, // Kcy
        0xE10E, // Kfr
        0xE142, // Kopf
        0xE0A6, // Kscr
    ],
};

// What `K` and `rest` stand for.
pub fn upper_k(rest: &[u8]) -> Option<DecodedEntityValue>
    ensures { meaning_bytes result ≡ lookup upper-K (0x4B ∷ rest.now) }
{
    UPPER_K.find(rest)
}

const UPPER_L_1: Table<'static> = Table {
    names: b"\
        JcyTacuteambdaangaplacetrfarrcaroncedilcy",
    lengths: &[3, 1, 5, 5, 3, 9, 3, 5, 5, 2],
    values: &[
        0x0409, // LJcy
        0x003C, // LT
        0x0139, // Lacute
        0x039B, // Lambda
        0x27EA, // Lang
        0x2112, // Laplacetrf
        0x219E, // Larr
        0x013D, // Lcaron
        0x013B, // Lcedil
        0x041B, // Lcy
    ],
};

// What `L` and `rest` stand for, where `rest` begins with a byte from 00 to 64 hex.
fn upper_l_1(rest: &[u8]) -> Option<DecodedEntityValue>
    ensures { meaning_bytes result ≡ lookup (having 1 (0x00, 0x64) upper-L) (0x4C ∷ rest.now) }
{
    UPPER_L_1.find(rest)
}

const UPPER_L_2: Table<'static> = Table {
    names: b"\
        eftAngleBracketeftArroweftArrowBareftArrowRightArroweftCeilingeftDoubleBracketeftDownTeeVector\
        eftDownVectoreftDownVectorBareftFlooreftRightArroweftRightVectoreftTeeeftTeeArroweftTeeVectoreftTriangle\
        eftTriangleBareftTriangleEqualeftUpDownVectoreftUpTeeVectoreftUpVectoreftUpVectorBareftVectoreftVectorBar\
        eftarroweftrightarrowessEqualGreateressFullEqualessGreateressLessessSlantEqualessTilde",
    lengths: &[
        15, 8, 11, 18, 10, 16, 16, 13, 16, 8, 13, 14, 6, 11, 12, 11, 14, 16, 15, 14, 11, 14, 9, 12,
        8, 13, 15, 12, 10, 7, 13, 8,
    ],
    values: &[
        0x27E8, // LeftAngleBracket
        0x2190, // LeftArrow
        0x21E4, // LeftArrowBar
        0x21C6, // LeftArrowRightArrow
        0x2308, // LeftCeiling
        0x27E6, // LeftDoubleBracket
        0x2961, // LeftDownTeeVector
        0x21C3, // LeftDownVector
        0x2959, // LeftDownVectorBar
        0x230A, // LeftFloor
        0x2194, // LeftRightArrow
        0x294E, // LeftRightVector
        0x22A3, // LeftTee
        0x21A4, // LeftTeeArrow
        0x295A, // LeftTeeVector
        0x22B2, // LeftTriangle
        0x29CF, // LeftTriangleBar
        0x22B4, // LeftTriangleEqual
        0x2951, // LeftUpDownVector
        0x2960, // LeftUpTeeVector
        0x21BF, // LeftUpVector
        0x2958, // LeftUpVectorBar
        0x21BC, // LeftVector
        0x2952, // LeftVectorBar
        0x21D0, // Leftarrow
        0x21D4, // Leftrightarrow
        0x22DA, // LessEqualGreater
        0x2266, // LessFullEqual
        0x2276, // LessGreater
        0x2AA1, // LessLess
        0x2A7D, // LessSlantEqual
        0x2272, // LessTilde
    ],
};

// What `L` and `rest` stand for, where `rest` begins with a byte from 65 to 65 hex.
fn upper_l_2(rest: &[u8]) -> Option<DecodedEntityValue>
    ensures { meaning_bytes result ≡ lookup (having 1 (0x65, 0x65) upper-L) (0x4C ∷ rest.now) }
{
    UPPER_L_2.find(rest)
}

const UPPER_L_3: Table<'static> = Table {
    names: b"\
        frlleftarrowmidotongLeftArrowongLeftRightArrowongRightArrowongleftarrowongleftrightarrowongrightarrowopf\
        owerLeftArrowowerRightArrowscrshstrokt",
    lengths: &[2, 1, 9, 5, 12, 17, 13, 12, 17, 13, 3, 13, 14, 3, 2, 5, 1],
    values: &[
        0xE10F, // Lfr
        0x22D8, // Ll
        0x21DA, // Lleftarrow
        0x013F, // Lmidot
        0x27F5, // LongLeftArrow
        0x27F7, // LongLeftRightArrow
        0x27F6, // LongRightArrow
        0x27F8, // Longleftarrow
        0x27FA, // Longleftrightarrow
        0x27F9, // Longrightarrow
        0xE143, // Lopf
        0x2199, // LowerLeftArrow
        0x2198, // LowerRightArrow
        0x2112, // Lscr
        0x21B0, // Lsh
        0x0141, // Lstrok
        0x226A, // Lt
    ],
};

// What `L` and `rest` stand for, where `rest` begins with a byte from 66 to FF hex.
fn upper_l_3(rest: &[u8]) -> Option<DecodedEntityValue>
    ensures { meaning_bytes result ≡ lookup (having 1 (0x66, 0xFF) upper-L) (0x4C ∷ rest.now) }
{
    UPPER_L_3.find(rest)
}

// What `L` and `rest` stand for.
pub fn upper_l(rest: &[u8]) -> Option<DecodedEntityValue>
    ensures { meaning_bytes result ≡ lookup upper-L (0x4C ∷ rest.now) }
{
    let second = names_search::byte_at(rest, 0);
    if second < b'e' {
        return upper_l_1(rest);
    }
    if second < b'f' {
        return upper_l_2(rest);
    }
    upper_l_3(rest)
}

const UPPER_M: Table<'static> = Table {
    names: b"\
        apcyediumSpaceellintrffrinusPlusopfscru",
    lengths: &[2, 2, 10, 8, 2, 8, 3, 3, 1],
    values: &[
        0x2905, // Map
        0x041C, // Mcy
        0x205F, // MediumSpace
        0x2133, // Mellintrf
        0xE110, // Mfr
        0x2213, // MinusPlus
        0xE144, // Mopf
        0x2133, // Mscr
        0x039C, // Mu
    ],
};

// What `M` and `rest` stand for.
pub fn upper_m(rest: &[u8]) -> Option<DecodedEntityValue>
    ensures { meaning_bytes result ≡ lookup upper-M (0x4D ∷ rest.now) }
{
    UPPER_M.find(rest)
}

const UPPER_N_1: Table<'static> = Table {
    names: b"\
        JcyacutecaroncedilcyegativeMediumSpaceegativeThickSpaceegativeThinSpaceegativeVeryThinSpace\
        estedGreaterGreaterestedLessLessewLinefr",
    lengths: &[3, 5, 5, 5, 2, 18, 17, 16, 20, 19, 13, 6, 2],
    values: &[
        0x040A, // NJcy
        0x0143, // Nacute
        0x0147, // Ncaron
        0x0145, // Ncedil
        0x041D, // Ncy
        0x200B, // NegativeMediumSpace
        0x200B, // NegativeThickSpace
        0x200B, // NegativeThinSpace
        0x200B, // NegativeVeryThinSpace
        0x226B, // NestedGreaterGreater
        0x226A, // NestedLessLess
        0x000A, // NewLine
        0xE111, // Nfr
    ],
};

// What `N` and `rest` stand for, where `rest` begins with a byte from 00 to 6E hex.
fn upper_n_1(rest: &[u8]) -> Option<DecodedEntityValue>
    ensures { meaning_bytes result ≡ lookup (having 1 (0x00, 0x6E) upper-N) (0x4E ∷ rest.now) }
{
    UPPER_N_1.find(rest)
}

const UPPER_N_2_1: Table<'static> = Table {
    names: b"\
        onBreakingSpaceototCongruentotCupCapotDoubleVerticalBarotElementotEqualotEqualTildeotExistsotGreater\
        otGreaterEqualotGreaterFullEqualotGreaterGreaterotGreaterLessotGreaterSlantEqualotGreaterTilde\
        otHumpDownHumpotHumpEqual",
    lengths: &[
        15, 2, 11, 8, 19, 9, 7, 12, 8, 9, 14, 18, 16, 13, 19, 14, 14, 11,
    ],
    values: &[
        0x00A0, // NonBreakingSpace
        0x2AEC, // Not
        0x2262, // NotCongruent
        0x226D, // NotCupCap
        0x2226, // NotDoubleVerticalBar
        0x2209, // NotElement
        0x2260, // NotEqual
        0xF000, // NotEqualTilde
        0x2204, // NotExists
        0x226F, // NotGreater
        0x2271, // NotGreaterEqual
        0xF001, // NotGreaterFullEqual
        0xF002, // NotGreaterGreater
        0x2279, // NotGreaterLess
        0xF003, // NotGreaterSlantEqual
        0x2275, // NotGreaterTilde
        0xF004, // NotHumpDownHump
        0xF005, // NotHumpEqual
    ],
};

// What `N` and `rest` stand for, where `rest` begins with a byte from 6F to 72 hex and the fourth byte of the name is one from 00 to 4B hex.
fn upper_n_2_1(rest: &[u8]) -> Option<DecodedEntityValue>
    ensures { meaning_bytes result ≡ lookup (having 3 (0x00, 0x4B) (having 1 (0x6F, 0x72) upper-N)) (0x4E ∷ rest.now) }
{
    UPPER_N_2_1.find(rest)
}

const UPPER_N_2_2: Table<'static> = Table {
    names: b"\
        otLeftTriangleotLeftTriangleBarotLeftTriangleEqualotLessotLessEqualotLessGreaterotLessLessotLessSlantEqual\
        otLessTildeotNestedGreaterGreaterotNestedLessLessotPrecedesotPrecedesEqualotPrecedesSlantEqual\
        otReverseElementotRightTriangleotRightTriangleBarotRightTriangleEqual",
    lengths: &[
        14, 17, 19, 6, 11, 13, 10, 16, 11, 22, 16, 10, 15, 20, 16, 15, 18, 20,
    ],
    values: &[
        0x22EA, // NotLeftTriangle
        0xF006, // NotLeftTriangleBar
        0x22EC, // NotLeftTriangleEqual
        0x226E, // NotLess
        0x2270, // NotLessEqual
        0x2278, // NotLessGreater
        0xF007, // NotLessLess
        0xF008, // NotLessSlantEqual
        0x2274, // NotLessTilde
        0xF009, // NotNestedGreaterGreater
        0xF00A, // NotNestedLessLess
        0x2280, // NotPrecedes
        0xF00B, // NotPrecedesEqual
        0x22E0, // NotPrecedesSlantEqual
        0x220C, // NotReverseElement
        0x22EB, // NotRightTriangle
        0xF00C, // NotRightTriangleBar
        0x22ED, // NotRightTriangleEqual
    ],
};

// What `N` and `rest` stand for, where `rest` begins with a byte from 6F to 72 hex and the fourth byte of the name is one from 4C to 52 hex.
fn upper_n_2_2(rest: &[u8]) -> Option<DecodedEntityValue>
    ensures { meaning_bytes result ≡ lookup (having 3 (0x4C, 0x52) (having 1 (0x6F, 0x72) upper-N)) (0x4E ∷ rest.now) }
{
    UPPER_N_2_2.find(rest)
}

const UPPER_N_2_3: Table<'static> = Table {
    names: b"\
        oBreakopfotSquareSubsetotSquareSubsetEqualotSquareSupersetotSquareSupersetEqualotSubsetotSubsetEqual\
        otSucceedsotSucceedsEqualotSucceedsSlantEqualotSucceedsTildeotSupersetotSupersetEqualotTildeotTildeEqual\
        otTildeFullEqualotTildeTildeotVerticalBar",
    lengths: &[
        6, 3, 14, 19, 16, 21, 8, 13, 10, 15, 20, 15, 10, 15, 7, 12, 16, 12, 13,
    ],
    values: &[
        0x2060, // NoBreak
        0x2115, // Nopf
        0xF00D, // NotSquareSubset
        0x22E2, // NotSquareSubsetEqual
        0xF00E, // NotSquareSuperset
        0x22E3, // NotSquareSupersetEqual
        0xF00F, // NotSubset
        0x2288, // NotSubsetEqual
        0x2281, // NotSucceeds
        0xF010, // NotSucceedsEqual
        0x22E1, // NotSucceedsSlantEqual
        0xF011, // NotSucceedsTilde
        0xF012, // NotSuperset
        0x2289, // NotSupersetEqual
        0x2241, // NotTilde
        0x2244, // NotTildeEqual
        0x2247, // NotTildeFullEqual
        0x2249, // NotTildeTilde
        0x2224, // NotVerticalBar
    ],
};

// What `N` and `rest` stand for, where `rest` begins with a byte from 6F to 72 hex and the fourth byte of the name is one from 53 to FF hex.
fn upper_n_2_3(rest: &[u8]) -> Option<DecodedEntityValue>
    ensures { meaning_bytes result ≡ lookup (having 3 (0x53, 0xFF) (having 1 (0x6F, 0x72) upper-N)) (0x4E ∷ rest.now) }
{
    UPPER_N_2_3.find(rest)
}

// What `N` and `rest` stand for, where `rest` begins with a byte from 6F to 72 hex.
fn upper_n_2(rest: &[u8]) -> Option<DecodedEntityValue>
    ensures { meaning_bytes result ≡ lookup (having 1 (0x6F, 0x72) upper-N) (0x4E ∷ rest.now) }
{
    let fourth = names_search::byte_at(rest, 2);
    if fourth < b'L' {
        return upper_n_2_1(rest);
    }
    if fourth < b'S' {
        return upper_n_2_2(rest);
    }
    upper_n_2_3(rest)
}

const UPPER_N_3: Table<'static> = Table {
    names: b"\
        scrtildeu",
    lengths: &[3, 5, 1],
    values: &[
        0xE0A9, // Nscr
        0x00D1, // Ntilde
        0x039D, // Nu
    ],
};

// What `N` and `rest` stand for, where `rest` begins with a byte from 73 to FF hex.
fn upper_n_3(rest: &[u8]) -> Option<DecodedEntityValue>
    ensures { meaning_bytes result ≡ lookup (having 1 (0x73, 0xFF) upper-N) (0x4E ∷ rest.now) }
{
    UPPER_N_3.find(rest)
}

// What `N` and `rest` stand for.
pub fn upper_n(rest: &[u8]) -> Option<DecodedEntityValue>
    ensures { meaning_bytes result ≡ lookup upper-N (0x4E ∷ rest.now) }
{
    let second = names_search::byte_at(rest, 0);
    if second < b'o' {
        return upper_n_1(rest);
    }
    if second < b's' {
        return upper_n_2(rest);
    }
    upper_n_3(rest)
}

const UPPER_O: Table<'static> = Table {
    names: b"\
        EligacutecirccydblacfrgravemacrmegamicronopfpenCurlyDoubleQuotepenCurlyQuoterscrslashtildetimesumlverBar\
        verBraceverBracketverParenthesis",
    lengths: &[
        4, 5, 4, 2, 5, 2, 5, 4, 4, 6, 3, 19, 13, 1, 3, 5, 5, 5, 3, 6, 8, 10, 14,
    ],
    values: &[
        0x0152, // OElig
        0x00D3, // Oacute
        0x00D4, // Ocirc
        0x041E, // Ocy
        0x0150, // Odblac
        0xE112, // Ofr
        0x00D2, // Ograve
        0x014C, // Omacr
        0x03A9, // Omega
        0x039F, // Omicron
        0xE146, // Oopf
        0x201C, // OpenCurlyDoubleQuote
        0x2018, // OpenCurlyQuote
        0x2A54, // Or
        0xE0AA, // Oscr
        0x00D8, // Oslash
        0x00D5, // Otilde
        0x2A37, // Otimes
        0x00D6, // Ouml
        0x203E, // OverBar
        0x23DE, // OverBrace
        0x23B4, // OverBracket
        0x23DC, // OverParenthesis
    ],
};

// What `O` and `rest` stand for.
pub fn upper_o(rest: &[u8]) -> Option<DecodedEntityValue>
    ensures { meaning_bytes result ≡ lookup upper-O (0x4F ∷ rest.now) }
{
    UPPER_O.find(rest)
}

const UPPER_P: Table<'static> = Table {
    names: b"\
        artialDcyfrhiilusMinusoincareplaneopfrrecedesrecedesEqualrecedesSlantEqualrecedesTilderimeroductroportion\
        roportionalscrsi",
    lengths: &[7, 2, 2, 2, 1, 8, 12, 3, 1, 7, 12, 17, 12, 4, 6, 9, 11, 3, 2],
    values: &[
        0x2202, // PartialD
        0x041F, // Pcy
        0xE113, // Pfr
        0x03A6, // Phi
        0x03A0, // Pi
        0x00B1, // PlusMinus
        0x210C, // Poincareplane
        0x2119, // Popf
        0x2ABB, // Pr
        0x227A, // Precedes
        0x2AAF, // PrecedesEqual
        0x227C, // PrecedesSlantEqual
        0x227E, // PrecedesTilde
        0x2033, // Prime
        0x220F, // Product
        0x2237, // Proportion
        0x221D, // Proportional
        0xE0AB, // Pscr
        0x03A8, // Psi
    ],
};

// What `P` and `rest` stand for.
pub fn upper_p(rest: &[u8]) -> Option<DecodedEntityValue>
    ensures { meaning_bytes result ≡ lookup upper-P (0x50 ∷ rest.now) }
{
    UPPER_P.find(rest)
}

const UPPER_Q: Table<'static> = Table {
    names: b"\
        UOTfropfscr",
    lengths: &[3, 2, 3, 3],
    values: &[
        0x0022, // QUOT
        0xE114, // Qfr
        0x211A, // Qopf
        0xE0AC, // Qscr
    ],
};

// What `Q` and `rest` stand for.
pub fn upper_q(rest: &[u8]) -> Option<DecodedEntityValue>
    ensures { meaning_bytes result ≡ lookup upper-Q (0x51 ∷ rest.now) }
{
    UPPER_Q.find(rest)
}

const UPPER_R_1: Table<'static> = Table {
    names: b"\
        BarrEGacuteangarrarrtlcaroncedilcyeeverseElementeverseEquilibriumeverseUpEquilibriumfrho",
    lengths: &[4, 2, 5, 3, 3, 5, 5, 5, 2, 1, 13, 17, 19, 2, 2],
    values: &[
        0x2910, // RBarr
        0x00AE, // REG
        0x0154, // Racute
        0x27EB, // Rang
        0x21A0, // Rarr
        0x2916, // Rarrtl
        0x0158, // Rcaron
        0x0156, // Rcedil
        0x0420, // Rcy
        0x211C, // Re
        0x220B, // ReverseElement
        0x21CB, // ReverseEquilibrium
        0x296F, // ReverseUpEquilibrium
        0x211C, // Rfr
        0x03A1, // Rho
    ],
};

// What `R` and `rest` stand for, where `rest` begins with a byte from 00 to 68 hex.
fn upper_r_1(rest: &[u8]) -> Option<DecodedEntityValue>
    ensures { meaning_bytes result ≡ lookup (having 1 (0x00, 0x68) upper-R) (0x52 ∷ rest.now) }
{
    UPPER_R_1.find(rest)
}

const UPPER_R_2: Table<'static> = Table {
    names: b"\
        ightAngleBracketightArrowightArrowBarightArrowLeftArrowightCeilingightDoubleBracketightDownTeeVector\
        ightDownVectorightDownVectorBarightFloorightTeeightTeeArrowightTeeVectorightTriangleightTriangleBar\
        ightTriangleEqualightUpDownVectorightUpTeeVectorightUpVectorightUpVectorBarightVectorightVectorBar\
        ightarrowopfoundImpliesrightarrowscrshuleDelayed",
    lengths: &[
        16, 9, 12, 18, 11, 17, 17, 14, 17, 9, 7, 12, 13, 12, 15, 17, 16, 15, 12, 15, 10, 13, 9, 3,
        11, 10, 3, 2, 10,
    ],
    values: &[
        0x27E9, // RightAngleBracket
        0x2192, // RightArrow
        0x21E5, // RightArrowBar
        0x21C4, // RightArrowLeftArrow
        0x2309, // RightCeiling
        0x27E7, // RightDoubleBracket
        0x295D, // RightDownTeeVector
        0x21C2, // RightDownVector
        0x2955, // RightDownVectorBar
        0x230B, // RightFloor
        0x22A2, // RightTee
        0x21A6, // RightTeeArrow
        0x295B, // RightTeeVector
        0x22B3, // RightTriangle
        0x29D0, // RightTriangleBar
        0x22B5, // RightTriangleEqual
        0x294F, // RightUpDownVector
        0x295C, // RightUpTeeVector
        0x21BE, // RightUpVector
        0x2954, // RightUpVectorBar
        0x21C0, // RightVector
        0x2953, // RightVectorBar
        0x21D2, // Rightarrow
        0x211D, // Ropf
        0x2970, // RoundImplies
        0x21DB, // Rrightarrow
        0x211B, // Rscr
        0x21B1, // Rsh
        0x29F4, // RuleDelayed
    ],
};

// What `R` and `rest` stand for, where `rest` begins with a byte from 69 to FF hex.
fn upper_r_2(rest: &[u8]) -> Option<DecodedEntityValue>
    ensures { meaning_bytes result ≡ lookup (having 1 (0x69, 0xFF) upper-R) (0x52 ∷ rest.now) }
{
    UPPER_R_2.find(rest)
}

// What `R` and `rest` stand for.
pub fn upper_r(rest: &[u8]) -> Option<DecodedEntityValue>
    ensures { meaning_bytes result ≡ lookup upper-R (0x52 ∷ rest.now) }
{
    let second = names_search::byte_at(rest, 0);
    if second < b'i' {
        return upper_r_1(rest);
    }
    upper_r_2(rest)
}

const UPPER_S_1: Table<'static> = Table {
    names: b"\
        HCHcyHcyOFTcyacuteccaroncedilcirccyfrhortDownArrowhortLeftArrowhortRightArrowhortUpArrowigmamallCircleopf\
        qrtquarequareIntersectionquareSubsetquareSubsetEqualquareSupersetquareSupersetEqualquareUnionscrtar",
    lengths: &[
        5, 3, 5, 5, 1, 5, 5, 4, 2, 2, 13, 13, 14, 11, 4, 10, 3, 3, 5, 17, 11, 16, 13, 18, 10, 3, 3,
    ],
    values: &[
        0x0429, // SHCHcy
        0x0428, // SHcy
        0x042C, // SOFTcy
        0x015A, // Sacute
        0x2ABC, // Sc
        0x0160, // Scaron
        0x015E, // Scedil
        0x015C, // Scirc
        0x0421, // Scy
        0xE116, // Sfr
        0x2193, // ShortDownArrow
        0x2190, // ShortLeftArrow
        0x2192, // ShortRightArrow
        0x2191, // ShortUpArrow
        0x03A3, // Sigma
        0x2218, // SmallCircle
        0xE14A, // Sopf
        0x221A, // Sqrt
        0x25A1, // Square
        0x2293, // SquareIntersection
        0x228F, // SquareSubset
        0x2291, // SquareSubsetEqual
        0x2290, // SquareSuperset
        0x2292, // SquareSupersetEqual
        0x2294, // SquareUnion
        0xE0AE, // Sscr
        0x22C6, // Star
    ],
};

// What `S` and `rest` stand for, where `rest` begins with a byte from 00 to 74 hex.
fn upper_s_1(rest: &[u8]) -> Option<DecodedEntityValue>
    ensures { meaning_bytes result ≡ lookup (having 1 (0x00, 0x74) upper-S) (0x53 ∷ rest.now) }
{
    UPPER_S_1.find(rest)
}

const UPPER_S_2: Table<'static> = Table {
    names: b"\
        ububsetubsetEqualucceedsucceedsEqualucceedsSlantEqualucceedsTildeuchThatumupupersetupersetEqualupset",
    lengths: &[2, 5, 10, 7, 12, 17, 12, 7, 2, 2, 7, 12, 5],
    values: &[
        0x22D0, // Sub
        0x22D0, // Subset
        0x2286, // SubsetEqual
        0x227B, // Succeeds
        0x2AB0, // SucceedsEqual
        0x227D, // SucceedsSlantEqual
        0x227F, // SucceedsTilde
        0x220B, // SuchThat
        0x2211, // Sum
        0x22D1, // Sup
        0x2283, // Superset
        0x2287, // SupersetEqual
        0x22D1, // Supset
    ],
};

// What `S` and `rest` stand for, where `rest` begins with a byte from 75 to FF hex.
fn upper_s_2(rest: &[u8]) -> Option<DecodedEntityValue>
    ensures { meaning_bytes result ≡ lookup (having 1 (0x75, 0xFF) upper-S) (0x53 ∷ rest.now) }
{
    UPPER_S_2.find(rest)
}

// What `S` and `rest` stand for.
pub fn upper_s(rest: &[u8]) -> Option<DecodedEntityValue>
    ensures { meaning_bytes result ≡ lookup upper-S (0x53 ∷ rest.now) }
{
    let second = names_search::byte_at(rest, 0);
    if second < b'u' {
        return upper_s_1(rest);
    }
    upper_s_2(rest)
}

const UPPER_T: Table<'static> = Table {
    names: b"\
        HORNRADESHcyScyabaucaroncedilcyfrhereforehetahickSpacehinSpaceildeildeEqualildeFullEqualildeTildeopf\
        ripleDotscrstrok",
    lengths: &[
        4, 4, 4, 3, 2, 2, 5, 5, 2, 2, 8, 4, 9, 8, 4, 9, 13, 9, 3, 8, 3, 5,
    ],
    values: &[
        0x00DE, // THORN
        0x2122, // TRADE
        0x040B, // TSHcy
        0x0426, // TScy
        0x0009, // Tab
        0x03A4, // Tau
        0x0164, // Tcaron
        0x0162, // Tcedil
        0x0422, // Tcy
        0xE117, // Tfr
        0x2234, // Therefore
        0x0398, // Theta
        0xF013, // ThickSpace
        0x2009, // ThinSpace
        0x223C, // Tilde
        0x2243, // TildeEqual
        0x2245, // TildeFullEqual
        0x2248, // TildeTilde
        0xE14B, // Topf
        0x20DB, // TripleDot
        0xE0AF, // Tscr
        0x0166, // Tstrok
    ],
};

// What `T` and `rest` stand for.
pub fn upper_t(rest: &[u8]) -> Option<DecodedEntityValue>
    ensures { meaning_bytes result ≡ lookup upper-T (0x54 ∷ rest.now) }
{
    UPPER_T.find(rest)
}

const UPPER_U_1: Table<'static> = Table {
    names: b"\
        acutearrarrocirbrcybrevecirccydblacfrgravemacrnderBarnderBracenderBracketnderParenthesisnionnionPlusogon\
        opfpArrowpArrowBarpArrowDownArrowpDownArrowpEquilibriumpTeepTeeArrowparrowpdownarrowpperLeftArrow\
        pperRightArrowpsipsilon",
    lengths: &[
        5, 3, 7, 4, 5, 4, 2, 5, 2, 5, 4, 7, 9, 11, 15, 4, 8, 4, 3, 6, 9, 15, 10, 12, 4, 9, 6, 10,
        13, 14, 3, 6,
    ],
    values: &[
        0x00DA, // Uacute
        0x219F, // Uarr
        0x2949, // Uarrocir
        0x040E, // Ubrcy
        0x016C, // Ubreve
        0x00DB, // Ucirc
        0x0423, // Ucy
        0x0170, // Udblac
        0xE118, // Ufr
        0x00D9, // Ugrave
        0x016A, // Umacr
        0x005F, // UnderBar
        0x23DF, // UnderBrace
        0x23B5, // UnderBracket
        0x23DD, // UnderParenthesis
        0x22C3, // Union
        0x228E, // UnionPlus
        0x0172, // Uogon
        0xE14C, // Uopf
        0x2191, // UpArrow
        0x2912, // UpArrowBar
        0x21C5, // UpArrowDownArrow
        0x2195, // UpDownArrow
        0x296E, // UpEquilibrium
        0x22A5, // UpTee
        0x21A5, // UpTeeArrow
        0x21D1, // Uparrow
        0x21D5, // Updownarrow
        0x2196, // UpperLeftArrow
        0x2197, // UpperRightArrow
        0x03D2, // Upsi
        0x03A5, // Upsilon
    ],
};

// What `U` and `rest` stand for, where `rest` begins with a byte from 00 to 71 hex.
fn upper_u_1(rest: &[u8]) -> Option<DecodedEntityValue>
    ensures { meaning_bytes result ≡ lookup (having 1 (0x00, 0x71) upper-U) (0x55 ∷ rest.now) }
{
    UPPER_U_1.find(rest)
}

const UPPER_U_2: Table<'static> = Table {
    names: b"\
        ringscrtildeuml",
    lengths: &[4, 3, 5, 3],
    values: &[
        0x016E, // Uring
        0xE0B0, // Uscr
        0x0168, // Utilde
        0x00DC, // Uuml
    ],
};

// What `U` and `rest` stand for, where `rest` begins with a byte from 72 to FF hex.
fn upper_u_2(rest: &[u8]) -> Option<DecodedEntityValue>
    ensures { meaning_bytes result ≡ lookup (having 1 (0x72, 0xFF) upper-U) (0x55 ∷ rest.now) }
{
    UPPER_U_2.find(rest)
}

// What `U` and `rest` stand for.
pub fn upper_u(rest: &[u8]) -> Option<DecodedEntityValue>
    ensures { meaning_bytes result ≡ lookup upper-U (0x55 ∷ rest.now) }
{
    let second = names_search::byte_at(rest, 0);
    if second < b'r' {
        return upper_u_1(rest);
    }
    upper_u_2(rest)
}

const UPPER_V: Table<'static> = Table {
    names: b"\
        DashbarcydashdashleeerbarerterticalBarerticalLineerticalSeparatorerticalTildeeryThinSpacefropfscrvdash",
    lengths: &[4, 3, 2, 4, 5, 2, 5, 3, 10, 11, 16, 12, 12, 2, 3, 3, 5],
    values: &[
        0x22AB, // VDash
        0x2AEB, // Vbar
        0x0412, // Vcy
        0x22A9, // Vdash
        0x2AE6, // Vdashl
        0x22C1, // Vee
        0x2016, // Verbar
        0x2016, // Vert
        0x2223, // VerticalBar
        0x007C, // VerticalLine
        0x2758, // VerticalSeparator
        0x2240, // VerticalTilde
        0x200A, // VeryThinSpace
        0xE119, // Vfr
        0xE14D, // Vopf
        0xE0B1, // Vscr
        0x22AA, // Vvdash
    ],
};

// What `V` and `rest` stand for.
pub fn upper_v(rest: &[u8]) -> Option<DecodedEntityValue>
    ensures { meaning_bytes result ≡ lookup upper-V (0x56 ∷ rest.now) }
{
    UPPER_V.find(rest)
}

const UPPER_W: Table<'static> = Table {
    names: b"\
        circedgefropfscr",
    lengths: &[4, 4, 2, 3, 3],
    values: &[
        0x0174, // Wcirc
        0x22C0, // Wedge
        0xE11A, // Wfr
        0xE14E, // Wopf
        0xE0B2, // Wscr
    ],
};

// What `W` and `rest` stand for.
pub fn upper_w(rest: &[u8]) -> Option<DecodedEntityValue>
    ensures { meaning_bytes result ≡ lookup upper-W (0x57 ∷ rest.now) }
{
    UPPER_W.find(rest)
}

const UPPER_X: Table<'static> = Table {
    names: b"\
        friopfscr",
    lengths: &[2, 1, 3, 3],
    values: &[
        0xE11B, // Xfr
        0x039E, // Xi
        0xE14F, // Xopf
        0xE0B3, // Xscr
    ],
};

// What `X` and `rest` stand for.
pub fn upper_x(rest: &[u8]) -> Option<DecodedEntityValue>
    ensures { meaning_bytes result ≡ lookup upper-X (0x58 ∷ rest.now) }
{
    UPPER_X.find(rest)
}

const UPPER_Y: Table<'static> = Table {
    names: b"\
        AcyIcyUcyacutecirccyfropfscruml",
    lengths: &[3, 3, 3, 5, 4, 2, 2, 3, 3, 3],
    values: &[
        0x042F, // YAcy
        0x0407, // YIcy
        0x042E, // YUcy
        0x00DD, // Yacute
        0x0176, // Ycirc
        0x042B, // Ycy
        0xE11C, // Yfr
        0xE150, // Yopf
        0xE0B4, // Yscr
        0x0178, // Yuml
    ],
};

// What `Y` and `rest` stand for.
pub fn upper_y(rest: &[u8]) -> Option<DecodedEntityValue>
    ensures { meaning_bytes result ≡ lookup upper-Y (0x59 ∷ rest.now) }
{
    UPPER_Y.find(rest)
}

const UPPER_Z: Table<'static> = Table {
    names: b"\
        HcyacutecaroncydoteroWidthSpaceetafropfscr",
    lengths: &[3, 5, 5, 2, 3, 13, 3, 2, 3, 3],
    values: &[
        0x0416, // ZHcy
        0x0179, // Zacute
        0x017D, // Zcaron
        0x0417, // Zcy
        0x017B, // Zdot
        0x200B, // ZeroWidthSpace
        0x0396, // Zeta
        0x2128, // Zfr
        0x2124, // Zopf
        0xE0B5, // Zscr
    ],
};

// What `Z` and `rest` stand for.
pub fn upper_z(rest: &[u8]) -> Option<DecodedEntityValue>
    ensures { meaning_bytes result ≡ lookup upper-Z (0x5A ∷ rest.now) }
{
    UPPER_Z.find(rest)
}
