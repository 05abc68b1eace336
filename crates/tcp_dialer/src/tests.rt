//! A dialer and a port of the machine.

use crate::TcpDialer;
use node_service::Dialer;
use std::io::Read;
use std::net::{Ipv4Addr, SocketAddr, TcpListener};
use std::test::Fail;

#[test]
fn pieces_come_in_order_and_a_closed_port_is_a_fault(rt: HostRuntime) -> Result<(), Fail> {
    let alloc = rt.alloc();
    let address = SocketAddr::from((Ipv4Addr::LOCALHOST, 0));
    let listener = TcpListener::bind(&rt, address)?;
    let port = listener.local_addr()?.port();
    let mut dialer = TcpDialer::new(rt, alloc);
    for piece in [&[1u8, 2], &[3u8, 4]] {
        assert!(rt; dialer.send(port, piece.as_slice()).is_ok());
    }
    let (mut stream, _) = listener.accept()?;
    let mut bytes = [0u8; 4];
    stream.read_exact(&mut bytes)?;
    assert!(rt; bytes == [1, 2, 3, 4]);
    drop(stream);
    drop(listener);
    drop(dialer);
    let mut dialer = TcpDialer::new(rt, alloc);
    assert!(rt; dialer.send(port, &[5]).is_err());
    Ok(())
}
