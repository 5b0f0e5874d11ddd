use fork_ledger::{Survey, Vault};
use fork_request::TenantName;
use git_name::{Hashing, Kind, Name, Sealed, name_of, seal};
use indexmap::IndexSet;
use loose_store::Memory;
use std::alloc::{AllocError, Global};
use std::test::Fail;

// Blobs of these contents.
fn blobs(alloc: Global, contents: &[&[u8]]) -> Result<Vec<Sealed>, AllocError> {
    let mut blobs = Vec::new(alloc);
    for content in contents {
        blobs.push(seal(Kind::Blob, content.to_vec(alloc)?))?;
    }
    Ok(blobs)
}

// Whether a blob of this content is lent.
fn is_lent(lent: Option<(Kind, &[u8])>, content: &[u8]) -> bool {
    match lent {
        Some((kind, bytes)) => kind == Kind::Blob && bytes == content,
        None => false,
    }
}

// Whether a vault has these objects staged for a tenant, and shows it none.
fn has_staged(
    alloc: Global,
    vault: &mut Vault<Memory>,
    alice: &TenantName,
    name: Name,
) -> Result<bool, Fail> {
    let seen = vault.get(alloc, alice, name).or(Err("get"))?;
    let staged = vault
        .get_staged(alloc, alice, name)
        .or(Err("get_staged"))?
        .ok_or("nothing is staged")?;
    Ok(
        vault.census() == 2
            && vault.used(alice) == 0
            && seen.is_none()
            && staged.bytes() == b"one".as_slice()
            && vault.lend(alice, name).is_none()
            && is_lent(vault.lend_held(alice, name), b"one"),
    )
}

// Whether a vault shows a tenant these objects, and keeps them all.
fn has_published(
    alloc: Global,
    vault: &mut Vault<Memory>,
    alice: &TenantName,
    name: Name,
) -> Result<bool, Fail> {
    vault.publish(alice);
    let seen = vault.get(alloc, alice, name).or(Err("get"))?;
    Ok(
        is_lent(vault.lend(alice, name), b"one")
            && vault.used(alice) == 134
            && seen.is_some()
            && vault.collect(alloc).or(Err("collect"))? == 0,
    )
}

// Whether a vault drops what a tenant no longer has.
fn has_let_go(
    alloc: Global,
    vault: &mut Vault<Memory>,
    alice: &TenantName,
    name: Name,
) -> Result<bool, Fail> {
    vault.keep_only(alice, &IndexSet::with_hasher(alloc, Hashing::default()));
    Ok(vault.lend_held(alice, name).is_none() && vault.collect(alloc).or(Err("collect"))? == 2)
}

// Whether objects that a tenant stages in one call are staged, published and dropped.
fn goes_its_way(
    alloc: Global,
    vault: &mut Vault<Memory>,
    alice: &TenantName,
) -> Result<bool, Fail> {
    vault.add(alloc, alice.copy())?;
    let objects = blobs(alloc, &[b"one", b"two", b"one"])?;
    let name = name_of(Kind::Blob, b"one");
    vault.stage_all(alloc, alice, objects).or(Err("stage_all"))?;
    Ok(
        has_staged(alloc, vault, alice, name)?
            && has_published(alloc, vault, alice, name)?
            && has_let_go(alloc, vault, alice, name)?,
    )
}

#[test]
fn objects_are_staged_in_one_call(rt: HostRuntime) -> Result<(), Fail> {
    let alloc = rt.alloc();
    let alice = TenantName::read(b"alice").ok_or("no name")?;
    let survey = Survey::new(alloc, Memory::new(alloc)).or(Err("new"))?;
    let mut vault = Vault::over(survey);
    let is_right = goes_its_way(alloc, &mut vault, &alice);
    drop(vault);
    assert!(rt; is_right?);
    Ok(())
}
