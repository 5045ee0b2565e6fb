// Made by tools/make_names.py from the entries of crates/rules/specs/Names.antt; not to be edited.
// The names that begin with a to l, a function for each letter, and in it groups by the second byte, or by the second and the fourth. Each group
// is a table: the names one after the other without their first letter, the length of each, and the numbers of their values (`code_bytes` in
// crates/names_search/specs/Lent.antt).
// A function for each group, as each has a contract of its own, proved by computing; the work of all is `Table::find`.
#![tactic(auto)]

ghost use Rattle.std.specs.Prelude.{◌≡◌, ◌∷◌};
ghost use Rattle.rules.specs.Names.{lower-a, lower-b, lower-c, lower-d, lower-e, lower-f, lower-g, lower-h, lower-i, lower-j, lower-k, lower-l};
ghost use Rattle.rules.specs.References.{lookup};
ghost use Rattle.rules.specs.Answers.{meaning_bytes};
ghost use Rattle.names_search.specs.Having.{having};

use names_search::Table;
use rules::DecodedEntityValue;

const LOWER_A_1: Table<'static> = Table {
    names: b"\
        acutebreveccEcdcirccutecyeligffrgravelefsymlephlphamacrmalgmp",
    lengths: &[5, 5, 1, 2, 2, 4, 4, 2, 4, 1, 2, 5, 6, 4, 4, 4, 4, 2],
    values: &[
        0x00E1, // aacute
        0x0103, // abreve
        0x223E, // ac
        0xF014, // acE
        0x223F, // acd
        0x00E2, // acirc
        0x00B4, // acute
        0x0430, // acy
        0x00E6, // aelig
        0x2061, // af
        0xE11E, // afr
        0x00E0, // agrave
        0x2135, // alefsym
        0x2135, // aleph
        0x03B1, // alpha
        0x0101, // amacr
        0x2A3F, // amalg
        0x0026, // amp
    ],
};

// What `a` and `rest` stand for, where `rest` begins with a byte from 00 to 6D hex.
fn lower_a_1(rest: &[u8]) -> Option<DecodedEntityValue>
    ensures { meaning_bytes result ≡ lookup (having 1 (0x00, 0x6D) lower-a) (0x61 ∷ rest.now) }
{
    LOWER_A_1.find(rest)
}

const LOWER_A_2: Table<'static> = Table {
    names: b"\
        ndndandnddndslopendvngngenglengmsdngmsdaangmsdabngmsdacngmsdadngmsdaengmsdafngmsdagngmsdahngrtngrtvb\
        ngrtvbdngsphngstngzarrogonopf",
    lengths: &[
        2, 5, 3, 7, 3, 2, 3, 4, 5, 7, 7, 7, 7, 7, 7, 7, 7, 4, 6, 7, 5, 4, 6, 4, 3,
    ],
    values: &[
        0x2227, // and
        0x2A55, // andand
        0x2A5C, // andd
        0x2A58, // andslope
        0x2A5A, // andv
        0x2220, // ang
        0x29A4, // ange
        0x2220, // angle
        0x2221, // angmsd
        0x29A8, // angmsdaa
        0x29A9, // angmsdab
        0x29AA, // angmsdac
        0x29AB, // angmsdad
        0x29AC, // angmsdae
        0x29AD, // angmsdaf
        0x29AE, // angmsdag
        0x29AF, // angmsdah
        0x221F, // angrt
        0x22BE, // angrtvb
        0x299D, // angrtvbd
        0x2222, // angsph
        0x00C5, // angst
        0x237C, // angzarr
        0x0105, // aogon
        0xE152, // aopf
    ],
};

// What `a` and `rest` stand for, where `rest` begins with a byte from 6E to 6F hex.
fn lower_a_2(rest: &[u8]) -> Option<DecodedEntityValue>
    ensures { meaning_bytes result ≡ lookup (having 1 (0x6E, 0x6F) lower-a) (0x61 ∷ rest.now) }
{
    LOWER_A_2.find(rest)
}

const LOWER_A_3: Table<'static> = Table {
    names: b"\
        ppEpacirpepidpospproxpproxeqringscrstsympsympeqtildeumlwconintwint",
    lengths: &[1, 2, 5, 2, 3, 3, 5, 7, 4, 3, 2, 4, 6, 5, 3, 7, 4],
    values: &[
        0x2248, // ap
        0x2A70, // apE
        0x2A6F, // apacir
        0x224A, // ape
        0x224B, // apid
        0x0027, // apos
        0x2248, // approx
        0x224A, // approxeq
        0x00E5, // aring
        0xE0B6, // ascr
        0x002A, // ast
        0x2248, // asymp
        0x224D, // asympeq
        0x00E3, // atilde
        0x00E4, // auml
        0x2233, // awconint
        0x2A11, // awint
    ],
};

// What `a` and `rest` stand for, where `rest` begins with a byte from 70 to FF hex.
fn lower_a_3(rest: &[u8]) -> Option<DecodedEntityValue>
    ensures { meaning_bytes result ≡ lookup (having 1 (0x70, 0xFF) lower-a) (0x61 ∷ rest.now) }
{
    LOWER_A_3.find(rest)
}

// What `a` and `rest` stand for.
pub fn lower_a(rest: &[u8]) -> Option<DecodedEntityValue>
    ensures { meaning_bytes result ≡ lookup lower-a (0x61 ∷ rest.now) }
{
    let second = names_search::byte_at(rest, 0);
    if second < b'n' {
        return lower_a_1(rest);
    }
    if second < b'p' {
        return lower_a_2(rest);
    }
    lower_a_3(rest)
}

const LOWER_B_1: Table<'static> = Table {
    names: b"\
        Notackcongackepsilonackprimeacksimacksimeqarveearwedarwedgebrkbrktbrkcongcydquoecausecauseemptyvepsiernou\
        etaethetweenfr",
    lengths: &[
        3, 7, 10, 8, 6, 8, 5, 5, 7, 3, 7, 4, 2, 4, 5, 6, 6, 4, 5, 3, 3, 6, 2,
    ],
    values: &[
        0x2AED, // bNot
        0x224C, // backcong
        0x03F6, // backepsilon
        0x2035, // backprime
        0x223D, // backsim
        0x22CD, // backsimeq
        0x22BD, // barvee
        0x2305, // barwed
        0x2305, // barwedge
        0x23B5, // bbrk
        0x23B6, // bbrktbrk
        0x224C, // bcong
        0x0431, // bcy
        0x201E, // bdquo
        0x2235, // becaus
        0x2235, // because
        0x29B0, // bemptyv
        0x03F6, // bepsi
        0x212C, // bernou
        0x03B2, // beta
        0x2136, // beth
        0x226C, // between
        0xE11F, // bfr
    ],
};

// What `b` and `rest` stand for, where `rest` begins with a byte from 00 to 68 hex.
fn lower_b_1(rest: &[u8]) -> Option<DecodedEntityValue>
    ensures { meaning_bytes result ≡ lookup (having 1 (0x00, 0x68) lower-b) (0x62 ∷ rest.now) }
{
    LOWER_B_1.find(rest)
}

const LOWER_B_2: Table<'static> = Table {
    names: b"\
        igcapigcircigcupigodotigoplusigotimesigsqcupigstarigtriangledownigtriangleupiguplusigveeigwedgekarow\
        lacklozengelacksquarelacktrianglelacktriangledownlacktriangleleftlacktrianglerightlanklk12lk14lk34lockne\
        nequivnot",
    lengths: &[
        5, 6, 5, 6, 7, 8, 7, 6, 14, 12, 7, 5, 7, 5, 11, 10, 12, 16, 16, 17, 4, 4, 4, 4, 4, 2, 6, 3,
    ],
    values: &[
        0x22C2, // bigcap
        0x25EF, // bigcirc
        0x22C3, // bigcup
        0x2A00, // bigodot
        0x2A01, // bigoplus
        0x2A02, // bigotimes
        0x2A06, // bigsqcup
        0x2605, // bigstar
        0x25BD, // bigtriangledown
        0x25B3, // bigtriangleup
        0x2A04, // biguplus
        0x22C1, // bigvee
        0x22C0, // bigwedge
        0x290D, // bkarow
        0x29EB, // blacklozenge
        0x25AA, // blacksquare
        0x25B4, // blacktriangle
        0x25BE, // blacktriangledown
        0x25C2, // blacktriangleleft
        0x25B8, // blacktriangleright
        0x2423, // blank
        0x2592, // blk12
        0x2591, // blk14
        0x2593, // blk34
        0x2588, // block
        0xF015, // bne
        0xF016, // bnequiv
        0x2310, // bnot
    ],
};

// What `b` and `rest` stand for, where `rest` begins with a byte from 69 to 6E hex.
fn lower_b_2(rest: &[u8]) -> Option<DecodedEntityValue>
    ensures { meaning_bytes result ≡ lookup (having 1 (0x69, 0x6E) lower-b) (0x62 ∷ rest.now) }
{
    LOWER_B_2.find(rest)
}

const LOWER_B_3_1: Table<'static> = Table {
    names: b"\
        otoxDLoxDRoxDloxDroxHoxHDoxHUoxHdoxHuoxULoxURoxUloxUr",
    lengths: &[2, 4, 4, 4, 4, 3, 4, 4, 4, 4, 4, 4, 4, 4],
    values: &[
        0x22A5, // bot
        0x2557, // boxDL
        0x2554, // boxDR
        0x2556, // boxDl
        0x2553, // boxDr
        0x2550, // boxH
        0x2566, // boxHD
        0x2569, // boxHU
        0x2564, // boxHd
        0x2567, // boxHu
        0x255D, // boxUL
        0x255A, // boxUR
        0x255C, // boxUl
        0x2559, // boxUr
    ],
};

// What `b` and `rest` stand for, where `rest` begins with a byte from 6F to 6F hex and the fourth byte of the name is one from 00 to 55 hex.
fn lower_b_3_1(rest: &[u8]) -> Option<DecodedEntityValue>
    ensures { meaning_bytes result ≡ lookup (having 3 (0x00, 0x55) (having 1 (0x6F, 0x6F) lower-b)) (0x62 ∷ rest.now) }
{
    LOWER_B_3_1.find(rest)
}

const LOWER_B_3_2: Table<'static> = Table {
    names: b"\
        opfoxVoxVHoxVLoxVRoxVhoxVloxVroxboxoxdLoxdRoxdloxdroxhoxhDoxhUoxhdoxhuoxminusoxplus",
    lengths: &[3, 3, 4, 4, 4, 4, 4, 4, 5, 4, 4, 4, 4, 3, 4, 4, 4, 4, 7, 6],
    values: &[
        0xE153, // bopf
        0x2551, // boxV
        0x256C, // boxVH
        0x2563, // boxVL
        0x2560, // boxVR
        0x256B, // boxVh
        0x2562, // boxVl
        0x255F, // boxVr
        0x29C9, // boxbox
        0x2555, // boxdL
        0x2552, // boxdR
        0x2510, // boxdl
        0x250C, // boxdr
        0x2500, // boxh
        0x2565, // boxhD
        0x2568, // boxhU
        0x252C, // boxhd
        0x2534, // boxhu
        0x229F, // boxminus
        0x229E, // boxplus
    ],
};

// What `b` and `rest` stand for, where `rest` begins with a byte from 6F to 6F hex and the fourth byte of the name is one from 56 to 73 hex.
fn lower_b_3_2(rest: &[u8]) -> Option<DecodedEntityValue>
    ensures { meaning_bytes result ≡ lookup (having 3 (0x56, 0x73) (having 1 (0x6F, 0x6F) lower-b)) (0x62 ∷ rest.now) }
{
    LOWER_B_3_2.find(rest)
}

const LOWER_B_3_3: Table<'static> = Table {
    names: b"\
        ottomowtieoxtimesoxuLoxuRoxuloxuroxvoxvHoxvLoxvRoxvhoxvloxvr",
    lengths: &[5, 5, 7, 4, 4, 4, 4, 3, 4, 4, 4, 4, 4, 4],
    values: &[
        0x22A5, // bottom
        0x22C8, // bowtie
        0x22A0, // boxtimes
        0x255B, // boxuL
        0x2558, // boxuR
        0x2518, // boxul
        0x2514, // boxur
        0x2502, // boxv
        0x256A, // boxvH
        0x2561, // boxvL
        0x255E, // boxvR
        0x253C, // boxvh
        0x2524, // boxvl
        0x251C, // boxvr
    ],
};

// What `b` and `rest` stand for, where `rest` begins with a byte from 6F to 6F hex and the fourth byte of the name is one from 74 to FF hex.
fn lower_b_3_3(rest: &[u8]) -> Option<DecodedEntityValue>
    ensures { meaning_bytes result ≡ lookup (having 3 (0x74, 0xFF) (having 1 (0x6F, 0x6F) lower-b)) (0x62 ∷ rest.now) }
{
    LOWER_B_3_3.find(rest)
}

// What `b` and `rest` stand for, where `rest` begins with a byte from 6F to 6F hex.
fn lower_b_3(rest: &[u8]) -> Option<DecodedEntityValue>
    ensures { meaning_bytes result ≡ lookup (having 1 (0x6F, 0x6F) lower-b) (0x62 ∷ rest.now) }
{
    let fourth = names_search::byte_at(rest, 2);
    if fourth < b'V' {
        return lower_b_3_1(rest);
    }
    if fourth < b't' {
        return lower_b_3_2(rest);
    }
    lower_b_3_3(rest)
}

const LOWER_B_4: Table<'static> = Table {
    names: b"\
        primerevervbarscrsemisimsimesolsolbsolhsubullulletumpumpEumpeumpeq",
    lengths: &[5, 4, 5, 3, 4, 3, 4, 3, 4, 7, 3, 5, 3, 4, 4, 5],
    values: &[
        0x2035, // bprime
        0x02D8, // breve
        0x00A6, // brvbar
        0xE0B7, // bscr
        0x204F, // bsemi
        0x223D, // bsim
        0x22CD, // bsime
        0x005C, // bsol
        0x29C5, // bsolb
        0x27C8, // bsolhsub
        0x2022, // bull
        0x2022, // bullet
        0x224E, // bump
        0x2AAE, // bumpE
        0x224F, // bumpe
        0x224F, // bumpeq
    ],
};

// What `b` and `rest` stand for, where `rest` begins with a byte from 70 to FF hex.
fn lower_b_4(rest: &[u8]) -> Option<DecodedEntityValue>
    ensures { meaning_bytes result ≡ lookup (having 1 (0x70, 0xFF) lower-b) (0x62 ∷ rest.now) }
{
    LOWER_B_4.find(rest)
}

// What `b` and `rest` stand for.
pub fn lower_b(rest: &[u8]) -> Option<DecodedEntityValue>
    ensures { meaning_bytes result ≡ lookup lower-b (0x62 ∷ rest.now) }
{
    let second = names_search::byte_at(rest, 0);
    if second < b'i' {
        return lower_b_1(rest);
    }
    if second < b'o' {
        return lower_b_2(rest);
    }
    if second < b'p' {
        return lower_b_3(rest);
    }
    lower_b_4(rest)
}

const LOWER_C_1: Table<'static> = Table {
    names: b"\
        acuteapapandapbrcupapcapapcupapdotapsaretaroncapscaroncedilcirccupscupssmdotedilemptyvententerdotfrhcyheck\
        heckmarkhi",
    lengths: &[
        5, 2, 5, 7, 5, 5, 5, 3, 4, 4, 4, 5, 5, 4, 4, 6, 3, 4, 6, 3, 8, 2, 3, 4, 8, 2,
    ],
    values: &[
        0x0107, // cacute
        0x2229, // cap
        0x2A44, // capand
        0x2A49, // capbrcup
        0x2A4B, // capcap
        0x2A47, // capcup
        0x2A40, // capdot
        0xF017, // caps
        0x2041, // caret
        0x02C7, // caron
        0x2A4D, // ccaps
        0x010D, // ccaron
        0x00E7, // ccedil
        0x0109, // ccirc
        0x2A4C, // ccups
        0x2A50, // ccupssm
        0x010B, // cdot
        0x00B8, // cedil
        0x29B2, // cemptyv
        0x00A2, // cent
        0x00B7, // centerdot
        0xE120, // cfr
        0x0447, // chcy
        0x2713, // check
        0x2713, // checkmark
        0x03C7, // chi
    ],
};

// What `c` and `rest` stand for, where `rest` begins with a byte from 00 to 68 hex.
fn lower_c_1(rest: &[u8]) -> Option<DecodedEntityValue>
    ensures { meaning_bytes result ≡ lookup (having 1 (0x00, 0x68) lower-c) (0x63 ∷ rest.now) }
{
    LOWER_C_1.find(rest)
}

const LOWER_C_2: Table<'static> = Table {
    names: b"\
        irirEircirceqirclearrowleftirclearrowrightircledRircledSircledastircledcircircleddashireirfnintirmidirscir\
        lubslubsuit",
    lengths: &[2, 3, 3, 5, 14, 15, 7, 7, 9, 10, 10, 3, 7, 5, 6, 4, 7],
    values: &[
        0x25CB, // cir
        0x29C3, // cirE
        0x02C6, // circ
        0x2257, // circeq
        0x21BA, // circlearrowleft
        0x21BB, // circlearrowright
        0x00AE, // circledR
        0x24C8, // circledS
        0x229B, // circledast
        0x229A, // circledcirc
        0x229D, // circleddash
        0x2257, // cire
        0x2A10, // cirfnint
        0x2AEF, // cirmid
        0x29C2, // cirscir
        0x2663, // clubs
        0x2663, // clubsuit
    ],
};

// What `c` and `rest` stand for, where `rest` begins with a byte from 69 to 6E hex.
fn lower_c_2(rest: &[u8]) -> Option<DecodedEntityValue>
    ensures { meaning_bytes result ≡ lookup (having 1 (0x69, 0x6E) lower-c) (0x63 ∷ rest.now) }
{
    LOWER_C_2.find(rest)
}

const LOWER_C_3: Table<'static> = Table {
    names: b"\
        olonoloneoloneqommaommatompompfnomplementomplexesongongdotonintopfoprodopyopysrrarrrossscrsubsubesupsupe\
        tdot",
    lengths: &[
        4, 5, 6, 4, 5, 3, 5, 9, 8, 3, 6, 5, 3, 5, 3, 5, 4, 4, 3, 3, 4, 3, 4, 4,
    ],
    values: &[
        0x003A, // colon
        0x2254, // colone
        0x2254, // coloneq
        0x002C, // comma
        0x0040, // commat
        0x2201, // comp
        0x2218, // compfn
        0x2201, // complement
        0x2102, // complexes
        0x2245, // cong
        0x2A6D, // congdot
        0x222E, // conint
        0xE154, // copf
        0x2210, // coprod
        0x00A9, // copy
        0x2117, // copysr
        0x21B5, // crarr
        0x2717, // cross
        0xE0B8, // cscr
        0x2ACF, // csub
        0x2AD1, // csube
        0x2AD0, // csup
        0x2AD2, // csupe
        0x22EF, // ctdot
    ],
};

// What `c` and `rest` stand for, where `rest` begins with a byte from 6F to 74 hex.
fn lower_c_3(rest: &[u8]) -> Option<DecodedEntityValue>
    ensures { meaning_bytes result ≡ lookup (having 1 (0x6F, 0x74) lower-c) (0x63 ∷ rest.now) }
{
    LOWER_C_3.find(rest)
}

const LOWER_C_4: Table<'static> = Table {
    names: b"\
        udarrludarrruepruescularrularrpupupbrcapupcapupcupupdotuporupsurarrurarrmurlyeqprecurlyeqsuccurlyvee\
        urlywedgeurrenurvearrowlefturvearrowrightuveeuwedwconintwintylcty",
    lengths: &[
        6, 6, 4, 4, 5, 6, 2, 7, 5, 5, 5, 4, 3, 5, 6, 10, 10, 7, 9, 5, 13, 14, 4, 4, 7, 4, 5,
    ],
    values: &[
        0x2938, // cudarrl
        0x2935, // cudarrr
        0x22DE, // cuepr
        0x22DF, // cuesc
        0x21B6, // cularr
        0x293D, // cularrp
        0x222A, // cup
        0x2A48, // cupbrcap
        0x2A46, // cupcap
        0x2A4A, // cupcup
        0x228D, // cupdot
        0x2A45, // cupor
        0xF018, // cups
        0x21B7, // curarr
        0x293C, // curarrm
        0x22DE, // curlyeqprec
        0x22DF, // curlyeqsucc
        0x22CE, // curlyvee
        0x22CF, // curlywedge
        0x00A4, // curren
        0x21B6, // curvearrowleft
        0x21B7, // curvearrowright
        0x22CE, // cuvee
        0x22CF, // cuwed
        0x2232, // cwconint
        0x2231, // cwint
        0x232D, // cylcty
    ],
};

// What `c` and `rest` stand for, where `rest` begins with a byte from 75 to FF hex.
fn lower_c_4(rest: &[u8]) -> Option<DecodedEntityValue>
    ensures { meaning_bytes result ≡ lookup (having 1 (0x75, 0xFF) lower-c) (0x63 ∷ rest.now) }
{
    LOWER_C_4.find(rest)
}

// What `c` and `rest` stand for.
pub fn lower_c(rest: &[u8]) -> Option<DecodedEntityValue>
    ensures { meaning_bytes result ≡ lookup lower-c (0x63 ∷ rest.now) }
{
    let second = names_search::byte_at(rest, 0);
    if second < b'i' {
        return lower_c_1(rest);
    }
    if second < b'o' {
        return lower_c_2(rest);
    }
    if second < b'u' {
        return lower_c_3(rest);
    }
    lower_c_4(rest)
}

const LOWER_D_1: Table<'static> = Table {
    names: b"\
        ArrHaraggeraletharrashashvbkarowblaccaroncyddaggerdarrdotseqegeltaemptyvfishtfrharlharr",
    lengths: &[
        3, 3, 5, 5, 3, 3, 4, 6, 4, 5, 2, 1, 6, 4, 6, 2, 4, 6, 5, 2, 4, 4,
    ],
    values: &[
        0x21D3, // dArr
        0x2965, // dHar
        0x2020, // dagger
        0x2138, // daleth
        0x2193, // darr
        0x2010, // dash
        0x22A3, // dashv
        0x290F, // dbkarow
        0x02DD, // dblac
        0x010F, // dcaron
        0x0434, // dcy
        0x2146, // dd
        0x2021, // ddagger
        0x21CA, // ddarr
        0x2A77, // ddotseq
        0x00B0, // deg
        0x03B4, // delta
        0x29B1, // demptyv
        0x297F, // dfisht
        0xE121, // dfr
        0x21C3, // dharl
        0x21C2, // dharr
    ],
};

// What `d` and `rest` stand for, where `rest` begins with a byte from 00 to 68 hex.
fn lower_d_1(rest: &[u8]) -> Option<DecodedEntityValue>
    ensures { meaning_bytes result ≡ lookup (having 1 (0x00, 0x68) lower-d) (0x64 ∷ rest.now) }
{
    LOWER_D_1.find(rest)
}

const LOWER_D_2: Table<'static> = Table {
    names: b"\
        iamiamondiamondsuitiamsieigammaisinivivideivideontimesivonxjcylcornlcropollaropfototeqoteqdototminusotplus\
        otsquareoublebarwedgeownarrowowndownarrowsownharpoonleftownharpoonrightrbkarowrcornrcrop",
    lengths: &[
        3, 6, 10, 4, 2, 6, 4, 2, 5, 12, 5, 3, 5, 5, 5, 3, 2, 4, 7, 7, 6, 8, 13, 8, 13, 14, 15, 7,
        5, 5,
    ],
    values: &[
        0x22C4, // diam
        0x22C4, // diamond
        0x2666, // diamondsuit
        0x2666, // diams
        0x00A8, // die
        0x03DD, // digamma
        0x22F2, // disin
        0x00F7, // div
        0x00F7, // divide
        0x22C7, // divideontimes
        0x22C7, // divonx
        0x0452, // djcy
        0x231E, // dlcorn
        0x230D, // dlcrop
        0x0024, // dollar
        0xE155, // dopf
        0x02D9, // dot
        0x2250, // doteq
        0x2251, // doteqdot
        0x2238, // dotminus
        0x2214, // dotplus
        0x22A1, // dotsquare
        0x2306, // doublebarwedge
        0x2193, // downarrow
        0x21CA, // downdownarrows
        0x21C3, // downharpoonleft
        0x21C2, // downharpoonright
        0x2910, // drbkarow
        0x231F, // drcorn
        0x230C, // drcrop
    ],
};

// What `d` and `rest` stand for, where `rest` begins with a byte from 69 to 72 hex.
fn lower_d_2(rest: &[u8]) -> Option<DecodedEntityValue>
    ensures { meaning_bytes result ≡ lookup (having 1 (0x69, 0x72) lower-d) (0x64 ∷ rest.now) }
{
    LOWER_D_2.find(rest)
}

const LOWER_D_3: Table<'static> = Table {
    names: b"\
        scrscysolstroktdottritrifuarruharwanglezcyzigrarr",
    lengths: &[3, 3, 3, 5, 4, 3, 4, 4, 4, 6, 3, 7],
    values: &[
        0xE0B9, // dscr
        0x0455, // dscy
        0x29F6, // dsol
        0x0111, // dstrok
        0x22F1, // dtdot
        0x25BF, // dtri
        0x25BE, // dtrif
        0x21F5, // duarr
        0x296F, // duhar
        0x29A6, // dwangle
        0x045F, // dzcy
        0x27FF, // dzigrarr
    ],
};

// What `d` and `rest` stand for, where `rest` begins with a byte from 73 to FF hex.
fn lower_d_3(rest: &[u8]) -> Option<DecodedEntityValue>
    ensures { meaning_bytes result ≡ lookup (having 1 (0x73, 0xFF) lower-d) (0x64 ∷ rest.now) }
{
    LOWER_D_3.find(rest)
}

// What `d` and `rest` stand for.
pub fn lower_d(rest: &[u8]) -> Option<DecodedEntityValue>
    ensures { meaning_bytes result ≡ lookup lower-d (0x64 ∷ rest.now) }
{
    let second = names_search::byte_at(rest, 0);
    if second < b'i' {
        return lower_d_1(rest);
    }
    if second < b's' {
        return lower_d_2(rest);
    }
    lower_d_3(rest)
}

const LOWER_E_1: Table<'static> = Table {
    names: b"\
        DDotDotacuteastercaroncircirccoloncydotefDotfrggravegsgsdotllinterslllslsdotmacrmptymptysetmptyvmspmsp13\
        msp14ngnsp",
    lengths: &[
        4, 3, 5, 5, 5, 3, 4, 5, 2, 3, 1, 4, 2, 1, 5, 2, 5, 1, 7, 2, 2, 5, 4, 4, 7, 5, 3, 5, 5, 2, 3,
    ],
    values: &[
        0x2A77, // eDDot
        0x2251, // eDot
        0x00E9, // eacute
        0x2A6E, // easter
        0x011B, // ecaron
        0x2256, // ecir
        0x00EA, // ecirc
        0x2255, // ecolon
        0x044D, // ecy
        0x0117, // edot
        0x2147, // ee
        0x2252, // efDot
        0xE122, // efr
        0x2A9A, // eg
        0x00E8, // egrave
        0x2A96, // egs
        0x2A98, // egsdot
        0x2A99, // el
        0x23E7, // elinters
        0x2113, // ell
        0x2A95, // els
        0x2A97, // elsdot
        0x0113, // emacr
        0x2205, // empty
        0x2205, // emptyset
        0x2205, // emptyv
        0x2003, // emsp
        0x2004, // emsp13
        0x2005, // emsp14
        0x014B, // eng
        0x2002, // ensp
    ],
};

// What `e` and `rest` stand for, where `rest` begins with a byte from 00 to 6E hex.
fn lower_e_1(rest: &[u8]) -> Option<DecodedEntityValue>
    ensures { meaning_bytes result ≡ lookup (having 1 (0x00, 0x6E) lower-e) (0x65 ∷ rest.now) }
{
    LOWER_E_1.find(rest)
}

const LOWER_E_2: Table<'static> = Table {
    names: b"\
        ogonopfparparslpluspsipsilonpsivqcircqcolonqsimqslantgtrqslantlessqualsquestquivquivDDqvparslrDotrarrscr\
        sdotsimtathumluroxclxistxpectationxponentiale",
    lengths: &[
        4, 3, 3, 5, 4, 3, 6, 4, 5, 6, 4, 9, 10, 5, 5, 4, 6, 7, 4, 4, 3, 4, 3, 2, 2, 3, 3, 3, 4, 10,
        11,
    ],
    values: &[
        0x0119, // eogon
        0xE156, // eopf
        0x22D5, // epar
        0x29E3, // eparsl
        0x2A71, // eplus
        0x03B5, // epsi
        0x03B5, // epsilon
        0x03F5, // epsiv
        0x2256, // eqcirc
        0x2255, // eqcolon
        0x2242, // eqsim
        0x2A96, // eqslantgtr
        0x2A95, // eqslantless
        0x003D, // equals
        0x225F, // equest
        0x2261, // equiv
        0x2A78, // equivDD
        0x29E5, // eqvparsl
        0x2253, // erDot
        0x2971, // erarr
        0x212F, // escr
        0x2250, // esdot
        0x2242, // esim
        0x03B7, // eta
        0x00F0, // eth
        0x00EB, // euml
        0x20AC, // euro
        0x0021, // excl
        0x2203, // exist
        0x2130, // expectation
        0x2147, // exponentiale
    ],
};

// What `e` and `rest` stand for, where `rest` begins with a byte from 6F to FF hex.
fn lower_e_2(rest: &[u8]) -> Option<DecodedEntityValue>
    ensures { meaning_bytes result ≡ lookup (having 1 (0x6F, 0xFF) lower-e) (0x65 ∷ rest.now) }
{
    LOWER_E_2.find(rest)
}

// What `e` and `rest` stand for.
pub fn lower_e(rest: &[u8]) -> Option<DecodedEntityValue>
    ensures { meaning_bytes result ≡ lookup lower-e (0x65 ∷ rest.now) }
{
    let second = names_search::byte_at(rest, 0);
    if second < b'o' {
        return lower_e_1(rest);
    }
    lower_e_2(rest)
}

const LOWER_F_1: Table<'static> = Table {
    names: b"\
        allingdotseqcyemalefiligfligflligfriligjliglatlligltnsnofopforallorkorkvpartint",
    lengths: &[12, 2, 5, 5, 4, 5, 2, 4, 4, 3, 4, 4, 3, 3, 5, 3, 4, 7],
    values: &[
        0x2252, // fallingdotseq
        0x0444, // fcy
        0x2640, // female
        0xF019, // ffilig
        0xF01A, // fflig
        0xF01B, // ffllig
        0xE123, // ffr
        0xF01C, // filig
        0xF01D, // fjlig
        0x266D, // flat
        0xF01E, // fllig
        0x25B1, // fltns
        0x0192, // fnof
        0xE157, // fopf
        0x2200, // forall
        0x22D4, // fork
        0x2AD9, // forkv
        0x2A0D, // fpartint
    ],
};

// What `f` and `rest` stand for, where `rest` begins with a byte from 00 to 71 hex.
fn lower_f_1(rest: &[u8]) -> Option<DecodedEntityValue>
    ensures { meaning_bytes result ≡ lookup (having 1 (0x00, 0x71) lower-f) (0x66 ∷ rest.now) }
{
    LOWER_F_1.find(rest)
}

const LOWER_F_2: Table<'static> = Table {
    names: b"\
        rac12rac13rac14rac15rac16rac18rac23rac25rac34rac35rac38rac45rac56rac58rac78raslrownscr",
    lengths: &[5, 5, 5, 5, 5, 5, 5, 5, 5, 5, 5, 5, 5, 5, 5, 4, 4, 3],
    values: &[
        0x00BD, // frac12
        0x2153, // frac13
        0x00BC, // frac14
        0x2155, // frac15
        0x2159, // frac16
        0x215B, // frac18
        0x2154, // frac23
        0x2156, // frac25
        0x00BE, // frac34
        0x2157, // frac35
        0x215C, // frac38
        0x2158, // frac45
        0x215A, // frac56
        0x215D, // frac58
        0x215E, // frac78
        0x2044, // frasl
        0x2322, // frown
        0xE0BB, // fscr
    ],
};

// What `f` and `rest` stand for, where `rest` begins with a byte from 72 to FF hex.
fn lower_f_2(rest: &[u8]) -> Option<DecodedEntityValue>
    ensures { meaning_bytes result ≡ lookup (having 1 (0x72, 0xFF) lower-f) (0x66 ∷ rest.now) }
{
    LOWER_F_2.find(rest)
}

// What `f` and `rest` stand for.
pub fn lower_f(rest: &[u8]) -> Option<DecodedEntityValue>
    ensures { meaning_bytes result ≡ lookup lower-f (0x66 ∷ rest.now) }
{
    let second = names_search::byte_at(rest, 0);
    if second < b'r' {
        return lower_f_1(rest);
    }
    lower_f_2(rest)
}

const LOWER_G_1: Table<'static> = Table {
    names: b"\
        EElacuteammaammadapbrevecirccydoteeleqeqqeqslantesesccesdotesdotoesdotolesleslesfrgggimeljcyllElalj",
    lengths: &[
        1, 2, 5, 4, 5, 2, 5, 4, 2, 3, 1, 2, 2, 3, 7, 2, 4, 5, 6, 7, 3, 5, 2, 1, 2, 4, 3, 1, 2, 2, 2,
    ],
    values: &[
        0x2267, // gE
        0x2A8C, // gEl
        0x01F5, // gacute
        0x03B3, // gamma
        0x03DD, // gammad
        0x2A86, // gap
        0x011F, // gbreve
        0x011D, // gcirc
        0x0433, // gcy
        0x0121, // gdot
        0x2265, // ge
        0x22DB, // gel
        0x2265, // geq
        0x2267, // geqq
        0x2A7E, // geqslant
        0x2A7E, // ges
        0x2AA9, // gescc
        0x2A80, // gesdot
        0x2A82, // gesdoto
        0x2A84, // gesdotol
        0xF01F, // gesl
        0x2A94, // gesles
        0xE124, // gfr
        0x226B, // gg
        0x22D9, // ggg
        0x2137, // gimel
        0x0453, // gjcy
        0x2277, // gl
        0x2A92, // glE
        0x2AA5, // gla
        0x2AA4, // glj
    ],
};

// What `g` and `rest` stand for, where `rest` begins with a byte from 00 to 6D hex.
fn lower_g_1(rest: &[u8]) -> Option<DecodedEntityValue>
    ensures { meaning_bytes result ≡ lookup (having 1 (0x00, 0x6D) lower-g) (0x67 ∷ rest.now) }
{
    LOWER_G_1.find(rest)
}

const LOWER_G_2: Table<'static> = Table {
    names: b"\
        nEnapnapproxneneqneqqnsimopfravescrsimsimesimlttcctcirtdottlPartquesttrapproxtrarrtrdottreqlesstreqqless\
        trlesstrsimvertneqqvnE",
    lengths: &[
        2, 3, 7, 2, 3, 4, 4, 3, 4, 3, 3, 4, 4, 1, 3, 4, 4, 5, 6, 8, 5, 5, 8, 9, 6, 5, 8, 3,
    ],
    values: &[
        0x2269, // gnE
        0x2A8A, // gnap
        0x2A8A, // gnapprox
        0x2A88, // gne
        0x2A88, // gneq
        0x2269, // gneqq
        0x22E7, // gnsim
        0xE158, // gopf
        0x0060, // grave
        0x210A, // gscr
        0x2273, // gsim
        0x2A8E, // gsime
        0x2A90, // gsiml
        0x003E, // gt
        0x2AA7, // gtcc
        0x2A7A, // gtcir
        0x22D7, // gtdot
        0x2995, // gtlPar
        0x2A7C, // gtquest
        0x2A86, // gtrapprox
        0x2978, // gtrarr
        0x22D7, // gtrdot
        0x22DB, // gtreqless
        0x2A8C, // gtreqqless
        0x2277, // gtrless
        0x2273, // gtrsim
        0xF020, // gvertneqq
        0xF020, // gvnE
    ],
};

// What `g` and `rest` stand for, where `rest` begins with a byte from 6E to FF hex.
fn lower_g_2(rest: &[u8]) -> Option<DecodedEntityValue>
    ensures { meaning_bytes result ≡ lookup (having 1 (0x6E, 0xFF) lower-g) (0x67 ∷ rest.now) }
{
    LOWER_G_2.find(rest)
}

// What `g` and `rest` stand for.
pub fn lower_g(rest: &[u8]) -> Option<DecodedEntityValue>
    ensures { meaning_bytes result ≡ lookup lower-g (0x67 ∷ rest.now) }
{
    let second = names_search::byte_at(rest, 0);
    if second < b'n' {
        return lower_g_1(rest);
    }
    lower_g_2(rest)
}

const LOWER_H: Table<'static> = Table {
    names: b"\
        Arrairspalfamiltardcyarrarrcirarrwbarcirceartseartsuitelliperconfrksearowkswarowoarromthtookleftarrow\
        ookrightarrowopforbarscrslashstrokybullyphen",
    lengths: &[
        3, 5, 3, 5, 5, 3, 6, 4, 3, 4, 5, 8, 5, 5, 2, 7, 7, 4, 5, 12, 13, 3, 5, 3, 5, 5, 5, 5,
    ],
    values: &[
        0x21D4, // hArr
        0x200A, // hairsp
        0x00BD, // half
        0x210B, // hamilt
        0x044A, // hardcy
        0x2194, // harr
        0x2948, // harrcir
        0x21AD, // harrw
        0x210F, // hbar
        0x0125, // hcirc
        0x2665, // hearts
        0x2665, // heartsuit
        0x2026, // hellip
        0x22B9, // hercon
        0xE125, // hfr
        0x2925, // hksearow
        0x2926, // hkswarow
        0x21FF, // hoarr
        0x223B, // homtht
        0x21A9, // hookleftarrow
        0x21AA, // hookrightarrow
        0xE159, // hopf
        0x2015, // horbar
        0xE0BD, // hscr
        0x210F, // hslash
        0x0127, // hstrok
        0x2043, // hybull
        0x2010, // hyphen
    ],
};

// What `h` and `rest` stand for.
pub fn lower_h(rest: &[u8]) -> Option<DecodedEntityValue>
    ensures { meaning_bytes result ≡ lookup lower-h (0x68 ∷ rest.now) }
{
    LOWER_H.find(rest)
}

const LOWER_I_1: Table<'static> = Table {
    names: b"\
        acuteccirccyecyexclfffrgraveiiiintiintinfiniotajligmacrmagemaglinemagpartmathmofmped",
    lengths: &[
        5, 1, 4, 2, 3, 4, 2, 2, 5, 1, 5, 4, 5, 4, 4, 4, 4, 7, 7, 4, 3, 4,
    ],
    values: &[
        0x00ED, // iacute
        0x2063, // ic
        0x00EE, // icirc
        0x0438, // icy
        0x0435, // iecy
        0x00A1, // iexcl
        0x21D4, // iff
        0xE126, // ifr
        0x00EC, // igrave
        0x2148, // ii
        0x2A0C, // iiiint
        0x222D, // iiint
        0x29DC, // iinfin
        0x2129, // iiota
        0x0133, // ijlig
        0x012B, // imacr
        0x2111, // image
        0x2110, // imagline
        0x2111, // imagpart
        0x0131, // imath
        0x22B7, // imof
        0x01B5, // imped
    ],
};

// What `i` and `rest` stand for, where `rest` begins with a byte from 00 to 6D hex.
fn lower_i_1(rest: &[u8]) -> Option<DecodedEntityValue>
    ensures { meaning_bytes result ≡ lookup (having 1 (0x00, 0x6D) lower-i) (0x69 ∷ rest.now) }
{
    LOWER_I_1.find(rest)
}

const LOWER_I_2: Table<'static> = Table {
    names: b"\
        nncarenfinnfintienodotntntcalntegersntercalntlarhkntprodocyogonopfotaprodquestscrsinsinEsindotsinssinsv\
        sinvttildeukcyuml",
    lengths: &[
        1, 5, 4, 7, 5, 2, 5, 7, 7, 7, 6, 3, 4, 3, 3, 4, 5, 3, 3, 4, 6, 4, 5, 4, 1, 5, 4, 3,
    ],
    values: &[
        0x2208, // in
        0x2105, // incare
        0x221E, // infin
        0x29DD, // infintie
        0x0131, // inodot
        0x222B, // int
        0x22BA, // intcal
        0x2124, // integers
        0x22BA, // intercal
        0x2A17, // intlarhk
        0x2A3C, // intprod
        0x0451, // iocy
        0x012F, // iogon
        0xE15A, // iopf
        0x03B9, // iota
        0x2A3C, // iprod
        0x00BF, // iquest
        0xE0BE, // iscr
        0x2208, // isin
        0x22F9, // isinE
        0x22F5, // isindot
        0x22F4, // isins
        0x22F3, // isinsv
        0x2208, // isinv
        0x2062, // it
        0x0129, // itilde
        0x0456, // iukcy
        0x00EF, // iuml
    ],
};

// What `i` and `rest` stand for, where `rest` begins with a byte from 6E to FF hex.
fn lower_i_2(rest: &[u8]) -> Option<DecodedEntityValue>
    ensures { meaning_bytes result ≡ lookup (having 1 (0x6E, 0xFF) lower-i) (0x69 ∷ rest.now) }
{
    LOWER_I_2.find(rest)
}

// What `i` and `rest` stand for.
pub fn lower_i(rest: &[u8]) -> Option<DecodedEntityValue>
    ensures { meaning_bytes result ≡ lookup lower-i (0x69 ∷ rest.now) }
{
    let second = names_search::byte_at(rest, 0);
    if second < b'n' {
        return lower_i_1(rest);
    }
    lower_i_2(rest)
}

const LOWER_J: Table<'static> = Table {
    names: b"\
        circcyfrmathopfscrsercyukcy",
    lengths: &[4, 2, 2, 4, 3, 3, 5, 4],
    values: &[
        0x0135, // jcirc
        0x0439, // jcy
        0xE127, // jfr
        0x0237, // jmath
        0xE15B, // jopf
        0xE0BF, // jscr
        0x0458, // jsercy
        0x0454, // jukcy
    ],
};

// What `j` and `rest` stand for.
pub fn lower_j(rest: &[u8]) -> Option<DecodedEntityValue>
    ensures { meaning_bytes result ≡ lookup lower-j (0x6A ∷ rest.now) }
{
    LOWER_J.find(rest)
}

const LOWER_K: Table<'static> = Table {
    names: b"\
        appaappavcedilcyfrgreenhcyjcyopfscr",
    lengths: &[4, 5, 5, 2, 2, 5, 3, 3, 3, 3],
    values: &[
        0x03BA, // kappa
        0x03F0, // kappav
        0x0137, // kcedil
        0x043A, // kcy
        0xE128, // kfr
        0x0138, // kgreen
        0x0445, // khcy
        0x045C, // kjcy
        0xE15C, // kopf
        0xE0C0, // kscr
    ],
};

// What `k` and `rest` stand for.
pub fn lower_k(rest: &[u8]) -> Option<DecodedEntityValue>
    ensures { meaning_bytes result ≡ lookup lower-k (0x6B ∷ rest.now) }
{
    LOWER_K.find(rest)
}

const LOWER_L_1: Table<'static> = Table {
    names: b"\
        AarrArrAtailBarrEEgHaracuteaemptyvagranambdaangangdangleapaquoarrarrbarrbfsarrfsarrhkarrlparrplarrsimarrtl\
        atatailateates",
    lengths: &[
        4, 3, 5, 4, 1, 2, 3, 5, 7, 5, 5, 3, 4, 5, 2, 4, 3, 4, 6, 5, 5, 5, 5, 6, 5, 2, 5, 3, 4,
    ],
    values: &[
        0x21DA, // lAarr
        0x21D0, // lArr
        0x291B, // lAtail
        0x290E, // lBarr
        0x2266, // lE
        0x2A8B, // lEg
        0x2962, // lHar
        0x013A, // lacute
        0x29B4, // laemptyv
        0x2112, // lagran
        0x03BB, // lambda
        0x27E8, // lang
        0x2991, // langd
        0x27E8, // langle
        0x2A85, // lap
        0x00AB, // laquo
        0x2190, // larr
        0x21E4, // larrb
        0x291F, // larrbfs
        0x291D, // larrfs
        0x21A9, // larrhk
        0x21AB, // larrlp
        0x2939, // larrpl
        0x2973, // larrsim
        0x21A2, // larrtl
        0x2AAB, // lat
        0x2919, // latail
        0x2AAD, // late
        0xF021, // lates
    ],
};

// What `l` and `rest` stand for, where `rest` begins with a byte from 00 to 61 hex.
fn lower_l_1(rest: &[u8]) -> Option<DecodedEntityValue>
    ensures { meaning_bytes result ≡ lookup (having 1 (0x00, 0x61) lower-l) (0x6C ∷ rest.now) }
{
    LOWER_L_1.find(rest)
}

const LOWER_L_2: Table<'static> = Table {
    names: b"\
        barrbbrkbracebrackbrkebrksldbrkslucaroncedilceilcubcydcadquodquordrdhardrushardsh",
    lengths: &[4, 4, 5, 5, 4, 6, 6, 5, 5, 4, 3, 2, 3, 4, 5, 6, 7, 3],
    values: &[
        0x290C, // lbarr
        0x2772, // lbbrk
        0x007B, // lbrace
        0x005B, // lbrack
        0x298B, // lbrke
        0x298F, // lbrksld
        0x298D, // lbrkslu
        0x013E, // lcaron
        0x013C, // lcedil
        0x2308, // lceil
        0x007B, // lcub
        0x043B, // lcy
        0x2936, // ldca
        0x201C, // ldquo
        0x201E, // ldquor
        0x2967, // ldrdhar
        0x294B, // ldrushar
        0x21B2, // ldsh
    ],
};

// What `l` and `rest` stand for, where `rest` begins with a byte from 62 to 64 hex.
fn lower_l_2(rest: &[u8]) -> Option<DecodedEntityValue>
    ensures { meaning_bytes result ≡ lookup (having 1 (0x62, 0x64) lower-l) (0x6C ∷ rest.now) }
{
    LOWER_L_2.find(rest)
}

const LOWER_L_3: Table<'static> = Table {
    names: b"\
        eeftarroweftarrowtaileftharpoondowneftharpoonupeftleftarrowseftrightarroweftrightarrowseftrightharpoons\
        eftrightsquigarroweftthreetimesegeqeqqeqslantesesccesdotesdotoesdotoresgesgesessapproxessdotesseqgtr\
        esseqqgtressgtresssimfishtfloorfr",
    lengths: &[
        1, 8, 12, 14, 12, 13, 13, 14, 16, 18, 13, 2, 2, 3, 7, 2, 4, 5, 6, 7, 3, 5, 9, 6, 8, 9, 6,
        6, 5, 5, 2,
    ],
    values: &[
        0x2264, // le
        0x2190, // leftarrow
        0x21A2, // leftarrowtail
        0x21BD, // leftharpoondown
        0x21BC, // leftharpoonup
        0x21C7, // leftleftarrows
        0x2194, // leftrightarrow
        0x21C6, // leftrightarrows
        0x21CB, // leftrightharpoons
        0x21AD, // leftrightsquigarrow
        0x22CB, // leftthreetimes
        0x22DA, // leg
        0x2264, // leq
        0x2266, // leqq
        0x2A7D, // leqslant
        0x2A7D, // les
        0x2AA8, // lescc
        0x2A7F, // lesdot
        0x2A81, // lesdoto
        0x2A83, // lesdotor
        0xF022, // lesg
        0x2A93, // lesges
        0x2A85, // lessapprox
        0x22D6, // lessdot
        0x22DA, // lesseqgtr
        0x2A8B, // lesseqqgtr
        0x2276, // lessgtr
        0x2272, // lesssim
        0x297C, // lfisht
        0x230A, // lfloor
        0xE129, // lfr
    ],
};

// What `l` and `rest` stand for, where `rest` begins with a byte from 65 to 66 hex.
fn lower_l_3(rest: &[u8]) -> Option<DecodedEntityValue>
    ensures { meaning_bytes result ≡ lookup (having 1 (0x65, 0x66) lower-l) (0x6C ∷ rest.now) }
{
    LOWER_L_3.find(rest)
}

const LOWER_L_4: Table<'static> = Table {
    names: b"\
        ggEhardharuharulhblkjcyllarrlcornerlhardltrimidotmoustmoustachenEnapnapproxneneqneqqnsim",
    lengths: &[
        1, 2, 4, 4, 5, 4, 3, 1, 4, 7, 5, 4, 5, 5, 9, 2, 3, 7, 2, 3, 4, 4,
    ],
    values: &[
        0x2276, // lg
        0x2A91, // lgE
        0x21BD, // lhard
        0x21BC, // lharu
        0x296A, // lharul
        0x2584, // lhblk
        0x0459, // ljcy
        0x226A, // ll
        0x21C7, // llarr
        0x231E, // llcorner
        0x296B, // llhard
        0x25FA, // lltri
        0x0140, // lmidot
        0x23B0, // lmoust
        0x23B0, // lmoustache
        0x2268, // lnE
        0x2A89, // lnap
        0x2A89, // lnapprox
        0x2A87, // lne
        0x2A87, // lneq
        0x2268, // lneqq
        0x22E6, // lnsim
    ],
};

// What `l` and `rest` stand for, where `rest` begins with a byte from 67 to 6E hex.
fn lower_l_4(rest: &[u8]) -> Option<DecodedEntityValue>
    ensures { meaning_bytes result ≡ lookup (having 1 (0x67, 0x6E) lower-l) (0x6C ∷ rest.now) }
{
    LOWER_L_4.find(rest)
}

const LOWER_L_5: Table<'static> = Table {
    names: b"\
        oangoarrobrkongleftarrowongleftrightarrowongmapstoongrightarrowooparrowleftooparrowrightoparopfoplusotimes\
        owastowbarozozengeozfparparltrarrrcornerrharrhardrmrtri",
    lengths: &[
        4, 4, 4, 12, 17, 9, 13, 12, 13, 4, 3, 5, 6, 5, 5, 2, 6, 3, 3, 5, 4, 7, 4, 5, 2, 4,
    ],
    values: &[
        0x27EC, // loang
        0x21FD, // loarr
        0x27E6, // lobrk
        0x27F5, // longleftarrow
        0x27F7, // longleftrightarrow
        0x27FC, // longmapsto
        0x27F6, // longrightarrow
        0x21AB, // looparrowleft
        0x21AC, // looparrowright
        0x2985, // lopar
        0xE15D, // lopf
        0x2A2D, // loplus
        0x2A34, // lotimes
        0x2217, // lowast
        0x005F, // lowbar
        0x25CA, // loz
        0x25CA, // lozenge
        0x29EB, // lozf
        0x0028, // lpar
        0x2993, // lparlt
        0x21C6, // lrarr
        0x231F, // lrcorner
        0x21CB, // lrhar
        0x296D, // lrhard
        0x200E, // lrm
        0x22BF, // lrtri
    ],
};

// What `l` and `rest` stand for, where `rest` begins with a byte from 6F to 72 hex.
fn lower_l_5(rest: &[u8]) -> Option<DecodedEntityValue>
    ensures { meaning_bytes result ≡ lookup (having 1 (0x6F, 0x72) lower-l) (0x6C ∷ rest.now) }
{
    LOWER_L_5.find(rest)
}

const LOWER_L_6: Table<'static> = Table {
    names: b"\
        saquoscrshsimsimesimgsqbsquosquorstrokttcctcirtdotthreetimestlarrtquesttrPartritrietrifurdsharuruhar\
        vertneqqvnE",
    lengths: &[
        5, 3, 2, 3, 4, 4, 3, 4, 5, 5, 1, 3, 4, 4, 5, 5, 5, 6, 5, 3, 4, 4, 7, 6, 8, 3,
    ],
    values: &[
        0x2039, // lsaquo
        0xE0C1, // lscr
        0x21B0, // lsh
        0x2272, // lsim
        0x2A8D, // lsime
        0x2A8F, // lsimg
        0x005B, // lsqb
        0x2018, // lsquo
        0x201A, // lsquor
        0x0142, // lstrok
        0x003C, // lt
        0x2AA6, // ltcc
        0x2A79, // ltcir
        0x22D6, // ltdot
        0x22CB, // lthree
        0x22C9, // ltimes
        0x2976, // ltlarr
        0x2A7B, // ltquest
        0x2996, // ltrPar
        0x25C3, // ltri
        0x22B4, // ltrie
        0x25C2, // ltrif
        0x294A, // lurdshar
        0x2966, // luruhar
        0xF023, // lvertneqq
        0xF023, // lvnE
    ],
};

// What `l` and `rest` stand for, where `rest` begins with a byte from 73 to FF hex.
fn lower_l_6(rest: &[u8]) -> Option<DecodedEntityValue>
    ensures { meaning_bytes result ≡ lookup (having 1 (0x73, 0xFF) lower-l) (0x6C ∷ rest.now) }
{
    LOWER_L_6.find(rest)
}

// What `l` and `rest` stand for.
pub fn lower_l(rest: &[u8]) -> Option<DecodedEntityValue>
    ensures { meaning_bytes result ≡ lookup lower-l (0x6C ∷ rest.now) }
{
    let second = names_search::byte_at(rest, 0);
    if second < b'b' {
        return lower_l_1(rest);
    }
    if second < b'e' {
        return lower_l_2(rest);
    }
    if second < b'g' {
        return lower_l_3(rest);
    }
    if second < b'o' {
        return lower_l_4(rest);
    }
    if second < b's' {
        return lower_l_5(rest);
    }
    lower_l_6(rest)
}
