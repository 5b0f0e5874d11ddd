use git_commit::{Header, Ident, Sign, write};
use git_name::{Kind, Name, name_of};
use git_refname::expand;
use git_tree::{Mode, TreeBuilder};
use std::test::Fail;

// The empty blob and the empty tree, a tree of the file `a.b`, the tree `a` and the file `a0`, and a signed
// commit of the empty tree, as Git 2.39.5 names them in a repository of the SHA-256 format.
const EMPTY_BLOB: &[u8; 64] = b"473a0f4c3be8a93681a267e3b1e9a7dcda1185436fe141f7749120a303721813";

const EMPTY_TREE: &[u8; 64] = b"6ef19b41225c5369f1c104d45d8d85efa9b057b53b14b4b9b939dd74decc5321";

const THREE: &[u8; 64] = b"c331b76588c4a05436a5c3d528a2fcb1ba895d1dbfffe84e925bd97fdbe5f770";

const SIGNED: &[u8; 64] = b"f254e32fed209e516b0324420c5230b1dd5b6dd9bcef53405e2c423545135306";

#[test]
fn a_tree_is_built_as_git_names_it(rt: HostRuntime) -> Result<(), Fail> {
    let blob = Name::parse_hex(EMPTY_BLOB).ok_or("digits")?;
    let tree = Name::parse_hex(EMPTY_TREE).ok_or("digits")?;
    let mut builder = TreeBuilder::new(rt.alloc());
    builder.push(Mode::File, b"a.b", blob)?;
    assert!(rt; builder.push(Mode::Tree, b"a-", tree).is_err());
    builder.push(Mode::Tree, b"a", tree)?;
    builder.push(Mode::File, b"a0", blob)?;
    let built = builder.finish();
    assert!(rt; Name::parse_hex(THREE) == Some(name_of(Kind::Tree, built.as_slice())));
    Ok(())
}

#[test]
fn a_signed_commit_is_written_as_git_names_it(rt: HostRuntime) -> Result<(), Fail> {
    let tree = Name::parse_hex(EMPTY_TREE).ok_or("digits")?;
    let author = Ident::new(b"A U Thor ", b"a@x.org", 1_700_000_000, Sign::Plus, b"0130")
        .ok()
        .ok_or("an ident")?;
    let committer = Ident::new(
        b"C O Mitter ",
        b"c@x.org",
        1_700_000_001,
        Sign::Minus,
        b"0500",
    )
    .ok()
    .ok_or("an ident")?;
    let more = [
        b"".as_slice(),
        b"abc".as_slice(),
        b"-----END PGP SIGNATURE-----".as_slice(),
    ];
    let header = Header::new(
        b"gpgsig-sha256",
        b"-----BEGIN PGP SIGNATURE-----",
        more.as_slice(),
    );
    let header = header.ok().ok_or("a header")?;
    let message = Some(b"signed\n".as_slice());
    let made = write(
        rt.alloc(),
        &tree,
        &[],
        author,
        committer,
        &[header],
        message,
    )?;
    assert!(rt; Name::parse_hex(SIGNED) == Some(name_of(Kind::Commit, made.as_slice())));
    Ok(())
}

#[test]
fn a_namespace_stands_before_its_references(rt: HostRuntime) -> Result<(), Fail> {
    let prefix = expand(rt.alloc(), b"alice", b"notes")?;
    let wanted = b"refs/namespaces/alice/refs/namespaces/notes/";
    assert_eq!(rt; prefix.as_slice(), wanted.as_slice());
    Ok(())
}
