// The service characters of an interchange: those that UNA names, or the plain ones.
#![tactic(auto)]

ghost use Rattle.std.specs.Prelude.{◌≡◌, [], ◌∷◌, not, ◌&&◌, ◌||◌, get_or};
ghost use Rattle.service.specs.Service.{plain_service, is_alphanumeric, serves, is_mark, among, distinct, named_by, serving_by, fitting, begins_una, characters_of};

#[derive(Clone, Copy, Debug, PartialEq, Eq)]
pub struct Service {
    pub component: u8,
    pub element: u8,
    // The byte named as the release, whether it releases or is a space, which does not: no Option, since the definition `follows_release` compares with
    // the byte in both cases.
    pub release: u8,
    pub releases: bool,
    pub terminator: u8,
}

// The characters that serve an interchange, and the length of the UNA that names them: 9, or 0 without UNA. A length and no Option: the
// definition `first_at` goes on from it.
#[derive(Clone, Copy, Debug, PartialEq, Eq)]
pub struct Characters {
    pub service: Service,
    pub una: usize,
}

// The characters of an interchange without UNA.
fn plain() -> Service
    ensures { result ≡ plain_service }
{
    Service {
        component: b':',
        element: b'+',
        release: b'?',
        releases: true,
        terminator: b'\'',
    }
}

// Whether a byte lies in 0x21 to 0x7E and is no letter or digit.
#[tactic(auto, unfolding(crate::specs::Service::serves, crate::specs::Service::is_alphanumeric))]
fn may_serve(b: u8) -> bool
    ensures { result ≡ serves b }
{
    b.is_ascii_graphic() && !b.is_ascii_alphanumeric()
}

// A comma or a dot.
#[tactic(auto, unfolding(crate::specs::Service::is_mark))]
pub fn is_mark(b: u8) -> bool
    ensures { result ≡ is_mark b }
{
    b == b',' || b == b'.'
}

// Whether the byte is none of the four. By number, here and below, and no function of a list: `among` and `distinct` of a list that is written out unfold to
// these tests.
#[tactic(auto, unfolding(crate::specs::Service::among))]
fn is_none_of(b: u8, w: u8, x: u8, y: u8, z: u8) -> bool
    ensures { result ≡ not (among b (w ∷ x ∷ y ∷ z ∷ [])) }
{
    b != w && b != x && b != y && b != z
}

// Whether three bytes all differ.
#[tactic(auto, unfolding(crate::specs::Service::distinct, crate::specs::Service::among))]
fn three_differ(a: u8, b: u8, c: u8) -> bool
    ensures { result ≡ distinct (a ∷ b ∷ c ∷ []) }
{
    a != b && a != c && b != c
}

// Whether five bytes all differ.
#[tactic(auto, unfolding(crate::specs::Service::distinct, crate::specs::Service::among))]
fn all_differ(a: u8, b: u8, c: u8, d: u8, e: u8) -> bool
    ensures { result ≡ distinct (a ∷ b ∷ c ∷ d ∷ e ∷ []) }
{
    is_none_of(a, b, c, d, e) && b != c && b != d && b != e && three_differ(c, d, e)
}

// Whether there is no release, or one that is fit.
fn release_fits(v: Service) -> bool
    ensures { result ≡ (not v.releases || serves v.release) }
{
    !v.releases || may_serve(v.release)
}

// Whether each of the characters is fit by itself.
fn each_fits(v: Service) -> bool
    ensures { result ≡ (serves v.component && (serves v.element && (serves v.terminator && (not v.releases || serves v.release)))) }
{
    may_serve(v.component) && may_serve(v.element) && may_serve(v.terminator) && release_fits(v)
}

// Whether those of the characters that are there all differ.
#[tactic(auto, unfolding(crate::specs::Service::distinct, crate::specs::Service::among))]
fn present_differ(v: Service) -> bool
    ensures { result ≡ distinct (serving_by v.releases v) }
{
    if v.releases {
        v.component != v.element
            && v.component != v.release
            && v.component != v.terminator
            && three_differ(v.element, v.release, v.terminator)
    } else {
        three_differ(v.component, v.element, v.terminator)
    }
}

// Whether a reader may go by the characters.
#[tactic(auto, unfolding(crate::specs::Service::fitting))]
pub fn fits(v: Service) -> bool
    ensures { result ≡ fitting v }
{
    each_fits(v) && present_differ(v)
}

// The characters that the six bytes after UNA name. A space for the release means that there is none.
#[tactic(auto, using(crate::specs::Laws::ServiceLaws::named_no_space, crate::specs::Laws::ServiceLaws::named_same, crate::specs::Laws::ServiceLaws::named_unfit, crate::specs::Laws::ServiceLaws::named_no_mark, crate::specs::Laws::ServiceLaws::named_fit))]
fn named(s: [u8; 6]) -> Option<Characters>
    ensures { result ≡ named_by (get_or s 0 0) (get_or s 1 0) (get_or s 2 0) (get_or s 3 0) (get_or s 4 0) (get_or s 5 0) }
{
    let service = Service {
        component: s[0],
        element: s[1],
        release: s[3],
        releases: s[3] != b' ',
        terminator: s[5],
    };
    if s[4] != b' ' {
        return None;
    }
    if !is_mark(s[2]) {
        return None;
    }
    if !each_fits(service) {
        return None;
    }
    if !all_differ(s[0], s[1], s[2], s[3], s[5]) {
        return None;
    }
    Some(Characters { service, una: 9 })
}

// Whether the bytes begin with UNA.
#[tactic(auto, unfolding(crate::specs::Service::begins_una))]
fn begins_with_una(s: &[u8]) -> bool
    ensures { result ≡ begins_una s.now }
{
    s.starts_with(b"UNA")
}

// The service characters of an interchange.
#[tactic(auto, unfolding(crate::specs::Service::characters_of))]
pub fn characters_of(s: &[u8]) -> Option<Characters>
    ensures { result ≡ characters_of s.now }
{
    if begins_with_una(s) {
        if s.len() < 9 {
            return None;
        }
        return named([s[3], s[4], s[5], s[6], s[7], s[8]]);
    }
    Some(Characters {
        service: plain(),
        una: 0,
    })
}
