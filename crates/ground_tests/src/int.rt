//! The answers of `dm_int` beside those of a C compiler.
//!
//! The tables were made with gcc 12.2 (`-std=c11`, x86-64) by two programs that print the value of each expression: `(T)v` and `T + U`'s type
//! for all kinds, and each operator on all pairs of the values at the borders of a promoted kind. Those ran under
//! `-fsanitize=undefined -fsanitize-undefined-trap-on-error`, and where the sanitizer trapped, the table has a fault: Zero for a
//! divisor 0, Shift for a shift, else Overflow.

ghost use Rattle.std.specs.Prelude.{IsTrue};
ghost use Rattle.dm_int.specs.Kinds as kinds;

use dm_int::{
    Fault, Kind, Op, binary, common, complement, convert, from_number, greatest, least, negate,
    promote, size,
};
use std::process::Abort;

// What gcc gives on the values of two kinds of one size and signedness, or of one kind twice. A letter is a place in `results`,
// counted from `0`, or a fault: `!` Overflow, `/` Zero, `#` Shift.
struct Table {
    kinds: [Kind; 2],
    values: &'static str,
    results: &'static str,
    // in each line an operator, in the order of `OPERATORS`, and a letter for each pair of values, in the order (v0, v0), (v0, v1), ..
    binary: &'static str,
    // a letter for each value
    negated: &'static [u8],
    complements: &'static [u8],
}

// The operators and their names in the tables.
const OPERATORS: [(Op, &str); 16] = [
    (Op::Add, "Add"),
    (Op::Sub, "Sub"),
    (Op::Mul, "Mul"),
    (Op::Div, "Div"),
    (Op::Rem, "Rem"),
    (Op::Shl, "Shl"),
    (Op::Shr, "Shr"),
    (Op::Less, "Less"),
    (Op::Greater, "Greater"),
    (Op::LessEq, "LessEq"),
    (Op::GreaterEq, "GreaterEq"),
    (Op::Equal, "Equal"),
    (Op::NotEqual, "NotEqual"),
    (Op::And, "And"),
    (Op::Xor, "Xor"),
    (Op::Or, "Or"),
];

const INT: Table = Table {
    kinds: [Kind::Int, Kind::Int],
    values: "-2147483648 -2147483647 -2 -1 0 1 2 31 32 2147483646 2147483647",
    results: "0 1 -1 2 -2 3 -3 4 -4 7 8 15 -15 16 -16 29 -29 30 -30 31 -31 32 -32 33 -33 34 -34 62 -62 63 64 -64 124 128 961 992 1024 67108863 -67108863 -67108864 69273666 -69273666 536870911 -536870912 1073741823 -1073741823 1073741824 -1073741824 2147483614 -2147483614 2147483615 -2147483615 2147483616 -2147483616 2147483617 -2147483617 -2147483618 2147483644 -2147483644 2147483645 -2147483645 2147483646 -2147483646 2147483647 -2147483647 -2147483648",
    binary: r"Add !!!!qpnge42!!!qpnlec20!!86420?Aik!q64201ACkmqp42013CEmopn20135EGo!nl01357GI!!ge?ACEGKM!!ecACEGIMN!!42ikmo!!!!!20kmo!!!!!!
Sub 02npq!!!!!!10lnpq!!!!!mk02468HJq!om10246FHpq!o31024DFnp!!53102BDln!!75310@Bjl!!GECA?02ce!!IGECA10ac!!!omkib`02!!!!omkdb10
Mul !!!!0q!!!!!!!!o0p!!!!!!!73048LO!!!o31024DFnp00000000000qp42013CEmo!!84037KN!!!!LD0CKRS!!!!OF0ENST!!!!!n0m!!!!!!!!p0o!!!!!
Div 11^!/q_YW2201\o/p]YV220013/4200000001/2000000000/0000000002/1000000024/31000000<D/C;100000>F/E=110000]n/m\XU1002]p/o\XU11
Rem 020!/004042p020/022D204400/0044442220/0222220000/0000001110/0111113300/003333CC10/010CCCEE00/0010EEmm00/000A0mo010/011C10
Shl ################################################0000#######137########37:########CKP########ENQ########m##########o######
Shr ####q_[2#######p_[2#######4222#######2222#######0000#######1000#######3100#######C;90#######E=:0#######m\Z0#######o\Z0###
Less 0111111111100111111111000111111110000111111100000111111000000111110000000111100000000111000000000110000000000100000000000
Greater 0000000000010000000000110000000001110000000011110000000111110000001111110000011111110000111111110001111111110011111111110
LessEq 1111111111101111111111001111111110001111111100001111111000001111110000001111100000001111000000001110000000001100000000001
GreaterEq 1000000000011000000000111000000001111000000011111000000111111000001111111000011111111000111111111001111111111011111111111
Equal 1000000000001000000000001000000000001000000000001000000000001000000000001000000000001000000000001000000000001000000000001
NotEqual 0111111111110111111111110111111111110111111111110111111111110111111111110111111111110111111111110111111111110111111111110
And qqqq0000000qpqp0101001qq44003AEmmqp42013CEmo00000000000010101010010033003303301AC013C0AC00EE0000EEE00mm003AEmm01mo013CEmo
Xor 01moqpnge4210ompqlhc24mo01428DJqpom10246FHpqqp42013CEmopq24105AGomnl86350?IikghDFCA?0MfdecJHEGIM0`b42qpmoif`0124pqomkdb10
Or qp42qpnge42pp22pplgc224242424244222222222222qp42013CEmopp22115CGoonl42353CImogg22CCCCMooec42EGIMEmo4242momommo2222ooooooo",
    negated: br"!o31024DFnp",
    complements: br"om10246FHpq",
};

const UINT: Table = Table {
    kinds: [Kind::UInt, Kind::UInt],
    values: "0 1 2 31 32 2147483647 2147483648 2147483649 4294967294 4294967295",
    results: "0 1 2 3 4 7 8 15 16 29 30 31 32 33 34 62 63 64 124 128 961 992 1024 67108863 67108864 69273666 134217727 138547332 536870911 536870912 1073741823 1073741824 2147483615 2147483616 2147483617 2147483618 2147483645 2147483646 2147483647 2147483648 2147483649 2147483650 2147483651 2147483678 2147483679 2147483680 2147483681 4294967232 4294967234 4294967262 4294967263 4294967264 4294967265 4294967266 4294967267 4294967288 4294967292 4294967293 4294967294 4294967295",
    binary: r"Add 012;<VWXjk123<=WXYk0234=>XYZ01;<=?@[\]9:<=>@A\]^:;VWX[\jk0TUWXY\]k01UVXYZ]^012VWjk09:TUVhik01:;UVWij
Sub 0kjdcXWV2110kedYXW32210feZYX43;:90k]\[=<<;:10^]\>=VUTQP0kjXWWVURQ10kYXXWVSR210ZYjihbaVUT0kkjicbWVU10
Mul 0000000000012;<VWXjk024?Aj02hj0;?DERW\`d0<AEFc0<_c0VjRc1Wk2X0W0W0W0W0W0X2\<kW1jV0jh`_20j420kjdcXWV21
Div /000000000/100000000/210000000/;71000000/<81100000/VNIG10000/WOIH11000/XOIH11100/jVKJ21110/kVKJ21111
Rem /000000000/011111111/002222222/010;;;;;;/0010<<<<</011;0VVVV/002010WWW/0131210XX/002:0UT0j/013;1VU10
Shl 0000######124W######2460######;?BW######<AC0######VjhW######W000######X24W######jhg0######kjhW######
Shr 0000######1000######2100######;750######<860######VNL0######WOM1######XOM1######jVN1######kVN1######
Less 0111111111001111111100011111110000111111000001111100000011110000000111000000001100000000010000000000
Greater 0000000000100000000011000000001110000000111100000011111000001111110000111111100011111111001111111110
LessEq 1111111111011111111100111111110001111111000011111100000111110000001111000000011100000000110000000001
GreaterEq 1000000000110000000011100000001111000000111110000011111100001111111000111111110011111111101111111111
Equal 1000000000010000000000100000000001000000000010000000000100000000001000000000010000000000100000000001
NotEqual 0111111111101111111111011111111110111111111101111111111011111111110111111111101111111111011111111110
And 000000000001010101010022020022012;0;01:;0000<<00<<012;<V01UV000000WWWW010101WXWX002:<UWWjj012;<VWXjk
Xor 012;<VWXjk103:=UXWkj2309>TYZhi;:90@Q\[dc<=>@0P]^abVUTQP0kjXWWXY\]k01UVXWZ[^j10VUjkhdaXUV01kjicbWVU10
Or 012;<VWXjk113;=VXXkk232;>VYZjk;;;;@V\\kk<=>@<V]^jkVVVVVVkkkkWXY\]kWXjkXXZ\^kXXkkjkjkjkjkjkkkkkkkkkkk",
    negated: br"0kjdcXWV21",
    complements: br"kjicbWVU10",
};

const LONG: Table = Table {
    kinds: [Kind::Long, Kind::LLong],
    values: "-9223372036854775808 -9223372036854775807 -2 -1 0 1 2 63 64 9223372036854775806 9223372036854775807",
    results: "0 1 -1 2 -2 3 -3 4 -4 6 7 -7 8 -8 15 16 31 -31 32 -32 61 -61 62 -62 63 -63 64 -64 65 -65 66 -66 126 -126 127 128 -128 252 256 3969 4032 4096 144115188075855871 -144115188075855871 -144115188075855872 146402730743726600 -146402730743726600 2305843009213693951 -2305843009213693952 4611686018427387903 -4611686018427387903 4611686018427387904 -4611686018427387904 9223372036854775742 -9223372036854775742 9223372036854775743 -9223372036854775743 9223372036854775744 -9223372036854775744 9223372036854775745 -9223372036854775745 -9223372036854775746 9223372036854775804 -9223372036854775804 9223372036854775805 -9223372036854775805 9223372036854775806 -9223372036854775806 9223372036854775807 -9223372036854775807 -9223372036854775808",
    binary: r"Add !!!!vuslj42!!!vusqjh20!!86420DFnp!v64201FHprvu42013HJrtus20135JLt!sq01357LN!!ljDFHJLPR!!jhFHJLNRS!!42nprt!!!!!20prt!!!!!!
Sub 02suv!!!!!!10qsuv!!!!!rp02468MOv!tr10246KMuv!t31024IKsu!!53102GIqs!!75310EGoq!!LJHFD02hj!!NLJHF10fh!!!trpnge02!!!!trpig10
Mul !!!!0v!!!!!!!!t0u!!!!!!!73048QT!!!t31024IKsu00000000000vu42013HJrt!!84037PS!!!!QI0HPWX!!!!TK0JSXY!!!!!s0r!!!!!!!!u0t!!!!!
Div 11c!/vd^\2201at/ub^[220013/4200000001/2000000000/0000000002/1000000024/31000000AI/H@100000CK/JB110000bs/ra]Z1002bu/ta]Z11
Rem 020!/00=042u020/02;I204400/0044442220/0222220000/0000001110/0111113300/003333HH10/010HHHJJ00/0010JJrr00/009F0rt010/01:H10
Shl ################################################0000#######137########37<########HPU########JSV########r##########t######
Shr ####vd`2#######ud`2#######4222#######2222#######0000#######1000#######3100#######H@>0#######JB?0#######ra_0#######ta_0###
Less 0111111111100111111111000111111110000111111100000111111000000111110000000111100000000111000000000110000000000100000000000
Greater 0000000000010000000000110000000001110000000011110000000111110000001111110000011111110000111111110001111111110011111111110
LessEq 1111111111101111111111001111111110001111111100001111111000001111110000001111100000001111000000001110000000001100000000001
GreaterEq 1000000000011000000000111000000001111000000011111000000111111000001111111000011111111000111111111001111111111011111111111
Equal 1000000000001000000000001000000000001000000000001000000000001000000000001000000000001000000000001000000000001000000000001
NotEqual 0111111111110111111111110111111111110111111111110111111111110111111111110111111111110111111111110111111111110111111111110
And vvvv0000000vuvu0101001vv44003FJrrvu42013HJrt00000000000010101010010033003303301FH013H0FH00JJ0000JJJ00rr003FJrr01rt013HJrt
Xor 01rtvuslj4210truvqmh24rt01428IOvutr10246KMuvvu42013HJrtuv24105FLtrsq86350DNnplmIKHFD0RkijhOMJLNR0eg42vurtnke0124uvtrpig10
Or vu42vuslj42uu22uuqlh224242424244222222222222vu42013HJrtuu22115HLttsq42353HNrtll22HHHHRttjh42JLNRJrt4242rtrtrrt2222ttttttt",
    negated: br"!t31024IKsu",
    complements: br"tr10246KMuv",
};

const ULONG: Table = Table {
    kinds: [Kind::ULong, Kind::ULLong],
    values: "0 1 2 63 64 9223372036854775807 9223372036854775808 9223372036854775809 18446744073709551614 18446744073709551615",
    results: "0 1 2 3 4 7 8 9 14 15 16 31 32 61 62 63 64 65 66 126 127 128 252 256 3969 4032 4096 144115188075855871 144115188075855872 146402730743726600 288230376151711743 292805461487453200 2305843009213693951 2305843009213693952 4611686018427387903 4611686018427387904 9223372036854775743 9223372036854775744 9223372036854775745 9223372036854775746 9223372036854775805 9223372036854775806 9223372036854775807 9223372036854775808 9223372036854775809 9223372036854775810 9223372036854775811 9223372036854775870 9223372036854775871 9223372036854775872 9223372036854775873 18446744073709551488 18446744073709551490 18446744073709551550 18446744073709551551 18446744073709551552 18446744073709551553 18446744073709551554 18446744073709551555 18446744073709551608 18446744073709551612 18446744073709551613 18446744073709551614 18446744073709551615",
    binary: r"Add 012?@Z[\no123@A[\]o0234AB\]^01?@ACD_`a=>@ABDE`ab>?Z[\_`no0XY[\]`ao01YZ\]^ab012Z[no0=>XYZlmo01>?YZ[mn
Sub 0onhg\[Z2110oih]\[32210ji^]\43?>=0oa`_A@@?>10ba`BAZYXUT0on\[[ZYVU10o]\\[ZWV210^]nmlfeZYX0oonmgf[ZY10
Mul 0000000000012?@Z[\no024CEn02ln0?CHIV[`dh0@EIJg0@cg0ZnVg1[o2\0[0[0[0[0[0\2`@o[1nZ0nldc20n420onhg\[Z21
Div /000000000/100000000/210000000/?;1000000/@<1100000/ZRMK10000/[SML11000/\SML11100/nZON21110/oZON21111
Rem /000000000/011111111/002222222/010??????/0010@@@@@/015?0ZZZZ/006010[[[/0171210\\/008>0YX0n/019?1ZY10
Shl 0000######124[######2460######?CF[######@EG0######Znl[######[000######\24[######nlk0######onl[######
Shr 0000######1000######2100######?;90######@<:0######ZRP0######[SQ1######\SQ1######nZR1######oZR1######
Less 0111111111001111111100011111110000111111000001111100000011110000000111000000001100000000010000000000
Greater 0000000000100000000011000000001110000000111100000011111000001111110000111111100011111111001111111110
LessEq 1111111111011111111100111111110001111111000011111100000111110000001111000000011100000000110000000001
GreaterEq 1000000000110000000011100000001111000000111110000011111100001111111000111111110011111111101111111111
Equal 1000000000010000000000100000000001000000000010000000000100000000001000000000010000000000100000000001
NotEqual 0111111111101111111111011111111110111111111101111111111011111111110111111111101111111111011111111110
And 000000000001010101010022020022012?0?01>?0000@@00@@012?@Z01YZ000000[[[[010101[\[\002>@Y[[nn012?@Z[\no
Xor 012?@Z[\no103>AY\[on230=BX]^lm?>=0DU`_hg@ABD0TabefZYXUT0on\[[\]`ao01YZ\[^_bn10ZYnolhe\YZ01onmgf[ZY10
Or 012?@Z[\no113?AZ\\oo232?BZ]^no????DZ``oo@ABD@ZabnoZZZZZZoooo[\]`ao[\no\\^`bo\\oonononononooooooooooo",
    negated: br"0onhg\[Z21",
    complements: br"onmgf[ZY10",
};

// A value, and what it is converted to at each kind, in the order of their numbers.
const CONVERTED: &str = "\
-9223372036854775808 1 0 0 0 0 0 0 0 -9223372036854775808 9223372036854775808 -9223372036854775808 9223372036854775808\n\
-2147483649 1 -1 -1 255 -1 65535 2147483647 2147483647 -2147483649 18446744071562067967 -2147483649 18446744071562067967\n\
-2147483648 1 0 0 0 0 0 -2147483648 2147483648 -2147483648 18446744071562067968 -2147483648 18446744071562067968\n\
-40000 1 -64 -64 192 25536 25536 -40000 4294927296 -40000 18446744073709511616 -40000 18446744073709511616\n\
-129 1 127 127 127 -129 65407 -129 4294967167 -129 18446744073709551487 -129 18446744073709551487\n\
-128 1 -128 -128 128 -128 65408 -128 4294967168 -128 18446744073709551488 -128 18446744073709551488\n\
-1 1 -1 -1 255 -1 65535 -1 4294967295 -1 18446744073709551615 -1 18446744073709551615\n\
0 0 0 0 0 0 0 0 0 0 0 0 0\n\
1 1 1 1 1 1 1 1 1 1 1 1 1\n\
2 1 2 2 2 2 2 2 2 2 2 2 2\n\
127 1 127 127 127 127 127 127 127 127 127 127 127\n\
128 1 -128 -128 128 128 128 128 128 128 128 128 128\n\
200 1 -56 -56 200 200 200 200 200 200 200 200 200\n\
255 1 -1 -1 255 255 255 255 255 255 255 255 255\n\
256 1 0 0 0 256 256 256 256 256 256 256 256\n\
32768 1 0 0 0 -32768 32768 32768 32768 32768 32768 32768 32768\n\
65535 1 -1 -1 255 -1 65535 65535 65535 65535 65535 65535 65535\n\
2147483647 1 -1 -1 255 -1 65535 2147483647 2147483647 2147483647 2147483647 2147483647 2147483647\n\
2147483648 1 0 0 0 0 0 -2147483648 2147483648 2147483648 2147483648 2147483648 2147483648\n\
4294967295 1 -1 -1 255 -1 65535 -1 4294967295 4294967295 4294967295 4294967295 4294967295\n\
4294967296 1 0 0 0 0 0 0 0 4294967296 4294967296 4294967296 4294967296\n\
9223372036854775807 1 -1 -1 255 -1 65535 -1 4294967295 9223372036854775807 9223372036854775807 9223372036854775807 9223372036854775807\n\
9223372036854775808 1 0 0 0 0 0 0 0 -9223372036854775808 9223372036854775808 -9223372036854775808 9223372036854775808\n\
18446744073709551360 1 0 0 0 -256 65280 -256 4294967040 -256 18446744073709551360 -256 18446744073709551360\n\
18446744073709551615 1 -1 -1 255 -1 65535 -1 4294967295 -1 18446744073709551615 -1 18446744073709551615";

// The number of the common kind of two kinds, by their numbers. On the diagonal that is the promoted kind.
const COMMON: [[u8; 12]; 12] = [
    [6, 6, 6, 6, 6, 6, 6, 7, 8, 9, 10, 11],
    [6, 6, 6, 6, 6, 6, 6, 7, 8, 9, 10, 11],
    [6, 6, 6, 6, 6, 6, 6, 7, 8, 9, 10, 11],
    [6, 6, 6, 6, 6, 6, 6, 7, 8, 9, 10, 11],
    [6, 6, 6, 6, 6, 6, 6, 7, 8, 9, 10, 11],
    [6, 6, 6, 6, 6, 6, 6, 7, 8, 9, 10, 11],
    [6, 6, 6, 6, 6, 6, 6, 7, 8, 9, 10, 11],
    [7, 7, 7, 7, 7, 7, 7, 7, 8, 9, 10, 11],
    [8, 8, 8, 8, 8, 8, 8, 8, 8, 9, 10, 11],
    [9, 9, 9, 9, 9, 9, 9, 9, 9, 9, 11, 11],
    [10, 10, 10, 10, 10, 10, 10, 10, 10, 11, 10, 11],
    [11, 11, 11, 11, 11, 11, 11, 11, 11, 11, 11, 11],
];

fn is_value(kind: Kind, value: i128) -> bool
    ensures { IsTrue result → kinds.InRange kind value }
{
    least(kind) <= value && value <= greatest(kind)
}

// What a letter stands for.
fn answer(letter: u8, results: &str) -> Option<Result<i128, Fault>> {
    match letter {
        b'!' => Some(Err(Fault::Overflow)),
        b'/' => Some(Err(Fault::Zero)),
        b'#' => Some(Err(Fault::Shift)),
        _ => {
            let place = usize::from(letter).checked_sub(48)?;
            Some(Ok(results.split(' ').nth(place)?.parse::<i128>().ok()?))
        }
    }
}

// The number that a word of a table writes.
fn value(rt: &impl Abort, word: &str) -> i128 {
    word.parse::<i128>().ok().expect(rt, "a number")
}

// What the operator gives. None where an operand is no value of the kind.
fn result(op: Op, kind: Kind, a: i128, b: i128) -> Option<Result<i128, Fault>> {
    if is_value(kind, a) && is_value(kind, b) {
        Some(binary(op, kind, a, b))
    } else {
        None
    }
}

// What `-` or `~` gives. None where the operand is no value of the kind.
fn result_of_one(sign: char, kind: Kind, a: i128) -> Option<Result<i128, Fault>> {
    if !is_value(kind, a) {
        return None;
    }
    match sign {
        '-' => Some(negate(kind, a)),
        _ => Some(Ok(complement(kind, a))),
    }
}

// Whether the operator gives on all pairs of values what the letters stand for.
fn agrees_on_pairs(rt: &impl Abort, op: Op, kind: Kind, table: &Table, letters: &[u8]) {
    let mut rest = letters;
    for first in table.values.split(' ') {
        for second in table.values.split(' ') {
            let (a, b) = (value(rt, first), value(rt, second));
            let (letter, after) = rest.split_first().expect(rt, "a letter for each pair");
            assert_eq!(rt;
                result(op, kind, a, b),
                answer(*letter, table.results),
                "{op:?} {a} {b}"
            );
            rest = after;
        }
    }
    assert!(rt; rest.is_empty(), "letters behind those of {op:?}");
}

// Whether `-` or `~` gives on all values what the letters stand for.
fn agrees_on_values(rt: &impl Abort, sign: char, kind: Kind, table: &Table, letters: &[u8]) {
    let mut rest = letters;
    for word in table.values.split(' ') {
        let a = value(rt, word);
        let (letter, after) = rest.split_first().expect(rt, "a letter for each value");
        assert_eq!(rt;
            result_of_one(sign, kind, a),
            answer(*letter, table.results),
            "{sign}{a}"
        );
        rest = after;
    }
    assert!(rt; rest.is_empty(), "letters behind those of {sign}");
}

fn agrees(rt: &impl Abort, table: &Table) {
    for kind in table.kinds {
        let mut lines = table.binary.lines();
        for (op, name) in OPERATORS {
            let line = lines.next().and_then(|line| line.split_once(' '));
            let (word, letters) = line.expect(rt, "a line for each operator");
            assert_eq!(rt; word, name);
            agrees_on_pairs(rt, op, kind, table, letters.as_bytes());
        }
        agrees_on_values(rt, '-', kind, table, table.negated);
        agrees_on_values(rt, '~', kind, table, table.complements);
    }
}

#[test]
fn operators_agree_with_gcc(rt: HostRuntime) {
    for table in [&INT, &UINT, &LONG, &ULONG] {
        agrees(&rt, table);
    }
}

#[test]
fn conversions_agree_with_gcc(rt: HostRuntime) {
    for line in CONVERTED.lines() {
        let mut words = line.split(' ');
        let value = words
            .next()
            .and_then(|word| word.parse::<i128>().ok())
            .expect(&rt, "a value");
        for number in 0..12u8 {
            let kind = from_number(number).expect(&rt, "a kind");
            let expected = words.next().and_then(|word| word.parse::<i128>().ok());
            assert_eq!(rt; Some(convert(kind, value)), expected, "{kind:?} {value}");
        }
    }
}

#[test]
fn common_kinds_agree_with_gcc(rt: HostRuntime) {
    for (number, row) in COMMON.iter().enumerate() {
        let kind = from_number(number as u8).expect(&rt, "a kind");
        assert_eq!(rt; usize::from(kind as u8), number);
        for (other, common_number) in row.iter().enumerate() {
            let second = from_number(other as u8).expect(&rt, "a kind");
            assert_eq!(rt;
                Some(common(kind, second)),
                from_number(*common_number),
                "{kind:?} {second:?}"
            );
            if kind == second {
                assert_eq!(rt; Some(promote(kind)), from_number(*common_number));
            }
        }
    }
}

// Each with what it gives.
const CALLS: [(Op, Kind, i128, i128, Result<i128, Fault>); 8] = [
    (Op::Add, Kind::Int, 2147483647, 1, Err(Fault::Overflow)),
    (Op::Div, Kind::Int, -7, 2, Ok(-3)),
    (Op::Rem, Kind::Int, -7, 2, Ok(-1)),
    (Op::Shr, Kind::Int, -5, 1, Ok(-3)),
    (Op::Shl, Kind::Int, 1, 31, Err(Fault::Shift)),
    (Op::Div, Kind::Int, -2147483648, -1, Err(Fault::Overflow)),
    (Op::Rem, Kind::Int, 1, 0, Err(Fault::Zero)),
    (Op::Add, Kind::UInt, 4294967295, 1, Ok(0)),
];

#[test]
fn single_calls(rt: HostRuntime) {
    for (op, kind, a, b, wanted) in CALLS {
        assert_eq!(rt; result(op, kind, a, b), Some(wanted), "{op:?} {a} {b}");
    }
    // The count of a shift is no value of the kind.
    let shifted = binary(Op::Shl, Kind::UInt, 1, 9223372036854775808);
    assert_eq!(rt; shifted, Err(Fault::Shift));
    assert_eq!(rt; convert(Kind::Char, 200), -56);
    assert_eq!(rt; convert(Kind::Bool, 5), 1);
    assert_eq!(rt; convert(Kind::UShort, -1), 65535);
    assert_eq!(rt; common(Kind::Long, Kind::UInt), Kind::Long);
    assert_eq!(rt; promote(Kind::UShort), Kind::Int);
    assert_eq!(rt; from_number(12), None);
}
