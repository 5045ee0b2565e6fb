// Made by tools/make_names.py from crates/rules/specs/Names.antt; not to be edited.
// The choice of a table by the first letter of a name.
ghost use Rattle.std.specs.Prelude.{◌≡◌, ◌∷◌};
ghost use Rattle.rules.specs.Names.{names};
ghost use Rattle.rules.specs.References.{lookup};
ghost use Rattle.rules.specs.Answers.{meaning_bytes};

use rules::DecodedEntityValue;

// Returns the value of the name that is the byte `first` and then `rest`, or nothing.
pub fn find_by_letter(first: u8, rest: &[u8]) -> Option<DecodedEntityValue>
    ensures { meaning_bytes result ≡ lookup names (first ∷ rest.now) }
{
    match first {
        b'A' => names_upper::upper_a(rest),
        b'B' => names_upper::upper_b(rest),
        b'C' => names_upper::upper_c(rest),
        b'D' => names_upper::upper_d(rest),
        b'E' => names_upper::upper_e(rest),
        b'F' => names_upper::upper_f(rest),
        b'G' => names_upper::upper_g(rest),
        b'H' => names_upper::upper_h(rest),
        b'I' => names_upper::upper_i(rest),
        b'J' => names_upper::upper_j(rest),
        b'K' => names_upper::upper_k(rest),
        b'L' => names_upper::upper_l(rest),
        b'M' => names_upper::upper_m(rest),
        b'N' => names_upper::upper_n(rest),
        b'O' => names_upper::upper_o(rest),
        b'P' => names_upper::upper_p(rest),
        b'Q' => names_upper::upper_q(rest),
        b'R' => names_upper::upper_r(rest),
        b'S' => names_upper::upper_s(rest),
        b'T' => names_upper::upper_t(rest),
        b'U' => names_upper::upper_u(rest),
        b'V' => names_upper::upper_v(rest),
        b'W' => names_upper::upper_w(rest),
        b'X' => names_upper::upper_x(rest),
        b'Y' => names_upper::upper_y(rest),
        b'Z' => names_upper::upper_z(rest),
        b'a' => names_a_to_l::lower_a(rest),
        b'b' => names_a_to_l::lower_b(rest),
        b'c' => names_a_to_l::lower_c(rest),
        b'd' => names_a_to_l::lower_d(rest),
        b'e' => names_a_to_l::lower_e(rest),
        b'f' => names_a_to_l::lower_f(rest),
        b'g' => names_a_to_l::lower_g(rest),
        b'h' => names_a_to_l::lower_h(rest),
        b'i' => names_a_to_l::lower_i(rest),
        b'j' => names_a_to_l::lower_j(rest),
        b'k' => names_a_to_l::lower_k(rest),
        b'l' => names_a_to_l::lower_l(rest),
        b'm' => names_m_to_z::lower_m(rest),
        b'n' => names_m_to_z::lower_n(rest),
        b'o' => names_m_to_z::lower_o(rest),
        b'p' => names_m_to_z::lower_p(rest),
        b'q' => names_m_to_z::lower_q(rest),
        b'r' => names_m_to_z::lower_r(rest),
        b's' => names_m_to_z::lower_s(rest),
        b't' => names_m_to_z::lower_t(rest),
        b'u' => names_m_to_z::lower_u(rest),
        b'v' => names_m_to_z::lower_v(rest),
        b'w' => names_m_to_z::lower_w(rest),
        b'x' => names_m_to_z::lower_x(rest),
        b'y' => names_m_to_z::lower_y(rest),
        b'z' => names_m_to_z::lower_z(rest),
        _ => None,
    }
}
