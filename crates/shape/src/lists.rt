// A page's lists that rule 11 has let pass, with a y for each x and no more vertices than a page may have.
ghost use Rattle.shape.specs.Ready.{Parted};

// By shape its type and its part count, by part its length, by vertex the patterns of its x and its y: lent, and handed on together.
#[derive(Clone, Copy)]
pub struct Lists<'a> {
    pub types: &'a [u8],
    pub counts: &'a [u16],
    pub lens: &'a [u16],
    pub xs: &'a [u64],
    pub ys: &'a [u64],
    pub ghost parted: { Parted types.now counts.now lens.now xs.now ys.now },
}
