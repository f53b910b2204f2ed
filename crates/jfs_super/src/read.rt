//! Reading a superblock, and its first broken rule.

ghost use Rattle.std.specs.Prelude.{◌≡◌, [], ◌∷◌, None, Some, IfOk, IfErr};
ghost use Rattle.jfs_bits.specs.Descriptor.{FitsPxd};
ghost use Rattle.jfs_bits.specs.Broken.{Answers, first_broken};
ghost use Rattle.jfs_super.specs.Super.{super_of, FitsSuper};
ghost use Rattle.jfs_super.specs.Rules.{IsAccepted, ends_within, shape_rows, flag_rows, size_rows, log_rows, rows};

use crate::fields::{Super, VolumeState};
use bitflags::Flags;
use jfs_bits::{
    Pxd, Rule, SuperFlags, get_array, get_moment, get_pxd, get_u8, get_u16, get_u32, get_u64,
};
use jfs_disk::Page;
use uuid::Uuid;

/// The first rule that a superblock breaks, with the value of that rule's field.
#[derive(Clone, Copy, PartialEq, Eq, Debug)]
pub struct BadSuper {
    pub rule: Rule,
    pub value: u64,
}

/// Reads the superblock of an image of so many pages.
#[tactic(auto, using(jfs_bits::proofs::Broken::later, jfs_bits::proofs::Broken::earlier), unfolding(crate::specs::Rules::rows))]
pub fn read_super(page: &Page, pages: u32) -> Result<Super, BadSuper>
    // It is accepted exactly where it breaks no rule, and then it is what the page spells.
    ensures accepted { IfOk result (λ s. IsAccepted s pages × (s ≡ super_of page.now.0)) }
    // Else the answer is the first rule that it breaks.
    ensures refused { IfErr result (λ bad. first_broken (rows (super_of page.now.0) pages) ≡ Some bad) }
    ensures fits { IfOk result FitsSuper }
{
    let s = spelled(page);
    check_shape(&s, pages)?;
    check_flags(&s)?;
    check_size(&s)?;
    check_log(&s, pages)?;
    Ok(s)
}

// The fields as they stand.
fn spelled(page: &Page) -> Super
    ensures value { result ≡ super_of page.now.0 }
    ensures fits { FitsSuper result }
{
    let bytes: &[u8] = &page.0;
    Super {
        magic: get_u32(bytes, 0),
        version: get_u32(bytes, 4),
        size: get_u64(bytes, 8),
        bsize: get_u32(bytes, 16),
        l2bsize: get_u16(bytes, 20),
        l2bfactor: get_u16(bytes, 22),
        pbsize: get_u32(bytes, 24),
        l2pbsize: get_u16(bytes, 28),
        agsize: get_u32(bytes, 32),
        flag: SuperFlags(get_u32(bytes, 36)),
        state: VolumeState(get_u32(bytes, 40)),
        compress: get_u32(bytes, 44),
        ait2: get_pxd(bytes, 48),
        aim2: get_pxd(bytes, 56),
        logdev: get_u32(bytes, 64),
        logserial: get_u32(bytes, 68),
        logpxd: get_pxd(bytes, 72),
        fsckpxd: get_pxd(bytes, 80),
        time: get_moment(bytes, 88),
        fsckloglen: get_u32(bytes, 96),
        fscklog: get_u8(bytes, 100),
        fpack: get_array(bytes, 101),
        xsize: get_u64(bytes, 112),
        xfsckpxd: get_pxd(bytes, 120),
        xlogpxd: get_pxd(bytes, 128),
        uuid: Uuid::from_bytes(get_array(bytes, 136)),
        label: get_array(bytes, 152),
        loguuid: Uuid::from_bytes(get_array(bytes, 168)),
    }
}

// The rule holds, or it is the one that is broken.
fn require(holds: bool, rule: Rule, value: u64) -> Result<(), BadSuper>
    ensures { Answers result (record { answer = record { rule = rule; value = value }; holds = holds } ∷ []) }
{
    jfs_bits::require(holds, BadSuper { rule, value })
}

#[tactic(auto, unfolding(crate::specs::Rules::shape_rows))]
fn check_shape(s: &Super, pages: u32) -> Result<(), BadSuper>
    ensures { Answers result (shape_rows s.now pages) }
{
    let s = *s;
    require(pages >= 9, Rule::Short, pages.into())?;
    require(
        s.magic == u32::from_le_bytes(*b"JFS1"),
        Rule::Magic,
        s.magic.into(),
    )?;
    require(
        s.version == 1 || s.version == 2,
        Rule::Version,
        s.version.into(),
    )?;
    require(s.bsize == 4096, Rule::Bsize, s.bsize.into())?;
    require(s.l2bsize == 12, Rule::L2bsize, s.l2bsize.into())?;
    require(s.l2bfactor == 3, Rule::L2bfactor, s.l2bfactor.into())?;
    require(s.pbsize == 512, Rule::Pbsize, s.pbsize.into())?;
    require(s.l2pbsize == 9, Rule::L2pbsize, s.l2pbsize.into())
}

#[tactic(auto, unfolding(crate::specs::Rules::flag_rows))]
fn check_flags(s: &Super) -> Result<(), BadSuper>
    ensures { Answers result (flag_rows s.now) }
{
    let flag = s.flag;
    let compress = s.compress;
    require(
        flag.contains(SuperFlags::INLINELOG),
        Rule::Inline,
        flag.0.into(),
    )?;
    require(!flag.contains(SuperFlags::OS2), Rule::Os2, flag.0.into())?;
    require(
        !flag.contains(SuperFlags::DIR_INDEX),
        Rule::Index,
        flag.0.into(),
    )?;
    require(compress == 0, Rule::Compress, compress.into())
}

#[tactic(auto, unfolding(crate::specs::Rules::size_rows))]
fn check_size(s: &Super) -> Result<(), BadSuper>
    ensures { Answers result (size_rows s.now) }
{
    let s = *s;
    let blocks = s.size / 8;
    let fits = s.size % 8 == 0 && 64 <= blocks && blocks <= 1 << 23;
    require(fits, Rule::Size, s.size)?;
    let agsize = u64::from(s.agsize);
    let groups_fit = s.agsize.is_power_of_two() && agsize >= 8192 && blocks.div_ceil(agsize) <= 128;
    require(groups_fit, Rule::Agsize, agsize)?;
    require(
        VolumeState::KNOWN.contains(&s.state),
        Rule::State,
        s.state.0.into(),
    )
}

#[tactic(auto, unfolding(crate::specs::Rules::log_rows))]
fn check_log(s: &Super, pages: u32) -> Result<(), BadSuper>
    requires { FitsSuper s.now }
    ensures { Answers result (log_rows s.now pages) }
{
    let s = *s;
    let blocks = s.size / 8;
    let log = s.logpxd;
    let log_fits = blocks <= log.addr
        && 256 <= log.len
        && log.len <= 32768
        && is_within(log, pages.into());
    require(log_fits, Rule::Log, log.addr)?;
    require(
        s.ait2.len == 4 && is_within(s.ait2, blocks),
        Rule::Second,
        s.ait2.addr,
    )?;
    require(
        s.aim2.len == 2 && is_within(s.aim2, blocks),
        Rule::Second,
        s.aim2.addr,
    )
}

// The run ends within so many blocks.
fn is_within(run: Pxd, blocks: u64) -> bool
    requires { FitsPxd run }
    ensures { result ≡ ends_within run blocks }
{
    run.addr + u64::from(run.len) <= blocks
}
